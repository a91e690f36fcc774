// Loads a text: judges it line by line, and leaves its circuit, as read or expanded, as gate codes in a lent slice.
#![tactic(auto)]

ghost use Rattle.std.specs.Prelude.{◌≡◌, ◌≤◌, length, drop};
ghost use Rattle.text.specs.declared.Kind.TheVariants.{Cascade, Circuit};
ghost use Rattle.text.specs.Judging.{judge};
ghost use Rattle.cascades.specs.Expansion.{expansion};
ghost use Rattle.text.specs.Heads.{kept_lines};
ghost use Rattle.cascades.specs.Signs.{between_nots};
ghost use Rattle.expansion.specs.Written.{Written};
ghost use Rattle.gathering.specs.Gathering.{listed};
ghost use Rattle.loading.specs.Loaded.{LoadsTo, Begun, Ready, gate_lines_from, TakenAs, Taken, ExpansionFits};

use gathering::Controls;
use reader::Reader;
use text::{Head, Kind, Refused};
use tokens::Parsed;

// An accepted text: its head, and how many codes its circuit has. They stand at the front of the list that was lent, since nothing is allocated.
#[derive(Clone, Copy)]
pub struct Loaded {
    pub head: Head,
    pub gates: usize,
}

// Where the loading of a text stands between two lines: how many gate lines were taken, and what was loaded so far.
#[derive(Clone, Copy)]
pub struct Progress {
    pub lines: usize,
    pub loaded: Loaded,
}

// The line of a circuit at a place, where the loading stands at p: its gate becomes the next code.
fn next_gate(
    s: &[u8],
    at: usize,
    p: Progress,
    list: &mut [u16],
) -> Result<Parsed<Progress>, Refused>
    requires { Ready Circuit s.now at p list.old }
    ensures { Taken Circuit s.now at p list.old result list.new }
{
    let head = p.loaded.head;
    let n = p.loaded.gates;
    let gate = judging::gate_line(s, at, head, n)?;
    list[n] = gates::encode(gate.value);
    let gates = n + 1;
    Ok(Parsed {
        value: Progress {
            lines: gates,
            loaded: Loaded { head, gates },
        },
        end: gate.end,
    })
}

// The expansion of an mct gate, from code m on.
fn expand_mct(head: Head, t: u8, a: Controls, list: &mut [u16], m: usize) -> usize
    requires count_in_bounds { (a.lines.count ≤ length a.lines.first) × (a.negated.count ≤ length a.negated.first) }
    requires expansion_fits { ExpansionFits head t (listed a.lines) (listed a.negated) m (length list.old) }
    ensures { Written (between_nots (listed a.negated) (expansion head.lines (kept_lines head) (listed a.lines) t)) list.old m list.new result }
{
    let lines = a.lines;
    let controls = lines.first;
    let k = lines.count;
    let negated = a.negated;
    let signed = negated.first;
    let j = negated.count;
    expansion::expand_signed(
        head.lines,
        head.kept,
        &controls[..k],
        &signed[..j],
        t,
        list,
        m,
    )
}

// The gate line of a cascade at a place, where the loading stands at p: its expansion stands behind those of the mct gates before it.
fn next_mct(s: &[u8], at: usize, p: Progress, list: &mut [u16]) -> Result<Parsed<Progress>, Refused>
    requires { Ready Cascade s.now at p list.old }
    ensures { TakenAs Cascade (gate_lines_from Cascade s.now at p.lines p.loaded.head p.loaded.gates list.old) s.now at result list.new }
{
    let head = p.loaded.head;
    let m = p.loaded.gates;
    let mct = judging::mct_line(s, at, head, p.lines, m)?;
    let read = mct.value;
    let gates = expand_mct(head, read.target, read.controls, list, m);
    Ok(Parsed {
        value: Progress {
            lines: p.lines + 1,
            loaded: Loaded { head, gates },
        },
        end: mct.end,
    })
}

// The line of a cascade at a place, where the loading stands at p: the first one below line 1 may be a keep line.
fn next_of_cascade(
    s: &[u8],
    at: usize,
    p: Progress,
    list: &mut [u16],
) -> Result<Parsed<Progress>, Refused>
    requires { Ready Cascade s.now at p list.old }
    ensures { Taken Cascade s.now at p list.old result list.new }
{
    let head = p.loaded.head;
    if p.lines != 0 {
        return next_mct(s, at, p, list);
    }
    if head.kept != 0 {
        return next_mct(s, at, p, list);
    }
    let Some(keep) = judging::keep_line(s, at, head)? else {
        return next_mct(s, at, p, list);
    };
    let loaded = Loaded {
        head: keep.value,
        gates: 0,
    };
    Ok(Parsed {
        value: Progress { lines: 0, loaded },
        end: keep.end,
    })
}

// Line 1 of a text, at a place.
fn first_line(s: &[u8], at: usize) -> Result<Parsed<Progress>, Refused>
    requires { at ≤ length s.now }
    ensures { Begun s.now at result }
{
    let head = judging::head_line(s, at)?;
    let loaded = Loaded {
        head: head.value,
        gates: 0,
    };
    Ok(Parsed {
        value: Progress { lines: 0, loaded },
        end: head.end,
    })
}

// The line at a place, where the loading of a text of a kind stands at p.
fn next_line(
    kind: Kind,
    s: &[u8],
    at: usize,
    p: Progress,
    list: &mut [u16],
) -> Result<Parsed<Progress>, Refused>
    requires { Ready kind s.now at p list.old }
    ensures { Taken kind s.now at p list.old result list.new }
{
    match kind {
        Kind::Cascade => next_of_cascade(s, at, p, list),
        Kind::Circuit => next_gate(s, at, p, list),
    }
}

// Loads a text of a kind from where a reader stands.
fn text_from<'a>(kind: Kind, r: Reader<'a>, list: &mut [u16]) -> Result<Loaded, Refused>
    requires { (r.place ≤ length r.text.now) × (4096 ≤ length list.old) }
    ensures { LoadsTo (judge kind (drop r.entry.place r.entry.text.now)) list.new result }
{
    let first = first_line(r.text, r.place)?;
    let mut p = first.value;
    let mut r = r.moved(first.end);
    while r.place < r.text.len() {
        let next = next_line(kind, r.text, r.place, p, list)?;
        p = next.value;
        r = r.moved(next.end);
    }
    Ok(p.loaded)
}

// Judges a text of a kind, and leaves the codes of its circuit, as read or expanded, at the front of the list. Any list that is long enough serves,
// so its length is a clause, here and above, and no type.
pub fn load(kind: Kind, s: &[u8], list: &mut [u16]) -> Result<Loaded, Refused>
    requires { 4096 ≤ length list.old }
    ensures { LoadsTo (judge kind s.now) list.new result }
{
    text_from(kind, Reader::new(s), list)
}
