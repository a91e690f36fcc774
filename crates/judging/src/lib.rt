// Judges a line of a text, at a place: rules 3 to 9, tried in order.
#![tactic(auto)]

ghost use Rattle.std.specs.Prelude.{◌≡◌, ◌&&◌, ◌≤◌, leb, length};
ghost use Rattle.text.specs.Heads.{line_below};
ghost use Rattle.judging.specs.Seen.{HeadLineOf, KeepLineOf, GateLineOf, MctLineOf, line_ahead};

use gates::Gate;
use reading::Mct;
use text::{Head, Refusal, Refused};
use tokens::Parsed;

// The number of the line after `before` gate lines: line 1 stands above them, and the keep line, where there is one.
fn line_number(head: Head, before: usize) -> usize
    requires { before ≤ 4096 }
    ensures { result ≡ line_below head before }
{
    if head.kept == 0 {
        return before + 2;
    }
    before + 3
}

// The line of a circuit at a place, after `before` gates: its gate and the place after it, or a refusal with its line.
pub fn gate_line(s: &[u8], at: usize, head: Head, before: usize) -> Result<Parsed<Gate>, Refused>
    requires at_in_bounds { at ≤ length s.now }
    requires before_bound { before ≤ 4096 }
    ensures gate_line_of { GateLineOf s.now at head before result }
    ensures gate_line_ahead { line_ahead s.now at head before result }
{
    let line = line_number(head, before);
    let Some(gate) = reading::read_gate(s, at) else {
        return Err(Refused {
            refusal: Refusal::Malformed,
            line,
        });
    };
    if let Err(refusal) = rules::gate_rules(head, gate.value, before) {
        return Err(Refused { refusal, line });
    }
    Ok(gate)
}

// The line of a cascade at a place, after `before` mct gates whose expansions have `total` gates: its mct gate and the place after it, or a refusal
// with its line. That the head is in range is a clause, here and in the rules, and no type: a head is what was read, of any number of lines.
pub fn mct_line(
    s: &[u8],
    at: usize,
    head: Head,
    before: usize,
    total: usize,
) -> Result<Parsed<Mct>, Refused>
    requires at_in_bounds { at ≤ length s.now }
    requires le_lines { (1 ≤ head.lines) × (head.lines ≤ 32) }
    requires before_bound { (before ≤ 256) × (total ≤ 4096) }
    ensures mct_line_of { MctLineOf s.now at head before total result }
    ensures mct_line_ahead { line_ahead s.now at head before result }
{
    let line = line_number(head, before);
    let Some(mct) = reading::read_mct(s, at) else {
        return Err(Refused {
            refusal: Refusal::Malformed,
            line,
        });
    };
    let read = mct.value;
    if let Err(refusal) = rules::mct_rules(head, read.target, read.controls, before, total) {
        return Err(Refused { refusal, line });
    }
    Ok(mct)
}

// Whether a head names 1 to 32 lines.
fn in_range(head: Head) -> bool
    ensures { result ≡ (leb 1 head.lines && leb head.lines 32) }
{
    let n = head.lines;
    if n < 1 {
        return false;
    }
    n <= 32
}

// Line 1 of a text, at a place: its head and the place after it, or a refusal with its line.
pub fn head_line(s: &[u8], at: usize) -> Result<Parsed<Head>, Refused>
    requires { at ≤ length s.now }
    ensures { HeadLineOf s.now at result }
{
    let Some(head) = reading::read_head(s, at) else {
        return Err(Refused {
            refusal: Refusal::Malformed,
            line: 1,
        });
    };
    if !in_range(head.value) {
        return Err(Refused {
            refusal: Refusal::NoSuchLine,
            line: 1,
        });
    }
    Ok(head)
}

// What stands at the place after line 1 of a cascade, below a head that keeps nothing yet: a keep line, with the head that it makes and the place
// after it; no keep line; or one that is refused, with its line.
pub fn keep_line(s: &[u8], at: usize, head: Head) -> Result<Option<Parsed<Head>>, Refused>
    requires at_in_bounds { at ≤ length s.now }
    requires le_lines { (1 ≤ head.lines) × (head.lines ≤ 32) }
    ensures { KeepLineOf s.now at head.lines result }
{
    let Some(keep) = reading::read_keep(s, at) else {
        return Ok(None);
    };
    let numbers = keep.value;
    let lines = head.lines;
    if lines <= numbers.largest {
        return Err(Refused {
            refusal: Refusal::NoSuchLine,
            line: 2,
        });
    }
    if !numbers.rising {
        return Err(Refused {
            refusal: Refusal::Unsorted,
            line: 2,
        });
    }
    let kept = spares::packed(numbers.marks);
    Ok(Some(Parsed {
        value: Head { lines, kept },
        end: keep.end,
    }))
}
