// The cursor: a line is read at a place of the text, and the place after it is given.
#![tactic(auto)]

ghost use Rattle.std.specs.Prelude.{◌≤◌, length, drop};
ghost use Rattle.text.specs.Reading.{control, controls, list, parse};
ghost use Rattle.tokens.specs.Seen.{tells};
ghost use Rattle.reading.specs.Seen.{only_head, only_keep, only_gate, only_mct, all_gathered, with_gathered, kept_gathered, followed, two_after, powered_after};

use cascades::Control;
use gates::Gate;
use gathering::Controls;
use text::Head;
use tokens::Parsed;

// What is read of a line of a cascade: what is kept of its controls, and its target.
#[derive(Clone, Copy)]
pub struct Mct {
    pub controls: Controls,
    pub target: u8,
}

// Fixed bytes, then `c t)` and the line's end.
fn two_numbers(s: &[u8], at: usize, w: &[u8]) -> Option<Parsed<(u8, u8)>>
    requires { at ≤ length s.now }
    ensures { tells s.now at (two_after w.now (drop at s.now)) result }
{
    let c = tokens::delimited_number(s, at, w, b"")?;
    let t = tokens::delimited_number(s, c.end, b" ", b")\n")?;
    Some(Parsed {
        value: (c.value, t.value),
        end: t.end,
    })
}

// The number of a control, whose sign has been read, and the space or the bracket after it: more controls come after a space.
fn control_number(s: &[u8], at: usize, negated: bool) -> Option<Parsed<(Control, bool)>>
    requires { at ≤ length s.now }
    ensures { tells s.now at (followed negated (drop at s.now)) result }
{
    if let Some(line) = tokens::delimited_number(s, at, b"", b" ") {
        let control = Control {
            line: line.value,
            negated,
        };
        return Some(Parsed {
            value: (control, true),
            end: line.end,
        });
    }
    let line = tokens::delimited_number(s, at, b"", b")")?;
    let control = Control {
        line: line.value,
        negated,
    };
    Some(Parsed {
        value: (control, false),
        end: line.end,
    })
}

// A control, with a minus sign directly before it or none.
fn one_control(s: &[u8], at: usize) -> Option<Parsed<(Control, bool)>>
    requires { at ≤ length s.now }
    ensures { tells s.now at (control (drop at s.now)) result }
{
    if let Some(p) = tokens::word(s, at, b"-") {
        return control_number(s, p, true);
    }
    control_number(s, at, false)
}

// The controls up to the bracket, of which there is at least one.
fn gather(s: &[u8], at: usize) -> Option<Parsed<Controls>>
    requires { at ≤ length s.now }
    ensures { tells s.now at (all_gathered (controls (length (drop at s.now)) (drop at s.now))) result }
{
    let mut sum = gathering::no_controls();
    let mut p = at;
    loop {
        let c = one_control(s, p)?;
        let (control, more) = c.value;
        sum = gathering::note(sum, control);
        p = c.end;
        if !more {
            return Some(Parsed { value: sum, end: p });
        }
    }
}

// The controls up to the bracket: none, or some.
fn listed(s: &[u8], at: usize) -> Option<Parsed<Controls>>
    requires { at ≤ length s.now }
    ensures { tells s.now at (all_gathered (list (drop at s.now))) result }
{
    if let Some(end) = tokens::word(s, at, b")") {
        return Some(Parsed {
            value: gathering::no_controls(),
            end,
        });
    }
    gather(s, at)
}

// The gate of a power after its word `w`.
fn powered_line(s: &[u8], at: usize, w: &[u8], power: u8) -> Option<Parsed<Gate>>
    requires { at ≤ length s.now }
    ensures { tells s.now at (powered_after w.now power (drop at s.now)) result }
{
    let lines = two_numbers(s, at, w)?;
    let (c, t) = lines.value;
    Some(Parsed {
        value: Gate::Powered(power, c, t),
        end: lines.end,
    })
}

// Line 1 of a text.
pub fn read_head(s: &[u8], at: usize) -> Option<Parsed<Head>>
    requires { at ≤ length s.now }
    ensures { tells s.now at (only_head (parse (drop at s.now))) result }
{
    let n = tokens::delimited_number(s, at, &text::LINES, b")\n")?;
    Some(Parsed {
        value: Head {
            lines: n.value,
            kept: 0,
        },
        end: n.end,
    })
}

// A keep line: numbers without a sign, at least one, gathered as controls are.
pub fn read_keep(s: &[u8], at: usize) -> Option<Parsed<Controls>>
    requires { at ≤ length s.now }
    ensures { tells s.now at (kept_gathered (only_keep (parse (drop at s.now)))) result }
{
    let start = tokens::word(s, at, &text::KEEP)?;
    let numbers = gather(s, start)?;
    if numbers.value.negated.count != 0 {
        return None;
    }
    let end = tokens::word(s, numbers.end, b"\n")?;
    Some(Parsed {
        value: numbers.value,
        end,
    })
}

// A line of a circuit: it begins with at most one of the four words.
pub fn read_gate(s: &[u8], at: usize) -> Option<Parsed<Gate>>
    requires { at ≤ length s.now }
    ensures { tells s.now at (only_gate (parse (drop at s.now))) result }
{
    if let Some(t) = tokens::delimited_number(s, at, &text::NOT, b")\n") {
        return Some(Parsed {
            value: Gate::Not(t.value),
            end: t.end,
        });
    }
    if let Some(g) = powered_line(s, at, &text::CN, 2) {
        return Some(g);
    }
    if let Some(g) = powered_line(s, at, &text::V, 1) {
        return Some(g);
    }
    powered_line(s, at, &text::VP, 3)
}

// A line of a cascade.
pub fn read_mct(s: &[u8], at: usize) -> Option<Parsed<Mct>>
    requires { at ≤ length s.now }
    ensures { tells s.now at (with_gathered (only_mct (parse (drop at s.now)))) result }
{
    let start = tokens::word(s, at, &text::MCT)?;
    let controls = listed(s, start)?;
    let target = tokens::delimited_number(s, controls.end, b" ", b")\n")?;
    Some(Parsed {
        value: Mct {
            controls: controls.value,
            target: target.value,
        },
        end: target.end,
    })
}
