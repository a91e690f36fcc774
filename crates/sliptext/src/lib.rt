// A slip as a text: its lines are read and judged, and its steps kept as numbers, in a lent slice: memory is fixed, there is no heap.
#![tactic(auto)]

ghost use Rattle.std.specs.Prelude.{ℕ, ◌+◌, ◌≤◌, ◌<◌, length, drop};
ghost use Rattle.text.specs.Reading.{cut};
ghost use Rattle.sliptext.specs.SlipText.{more, place, slip_form, slip_lines, slip_judged};
ghost use Rattle.sliptext.specs.Seen.{closed_place, place_at, place_tells, step_tells};
ghost use Rattle.sliptext.specs.Loaded.{LoadsTo};

use text::{Refusal, Refused};
use tokens::Parsed;

// The digits after the first one, which stands at `at`: at most three of them.
#[tactic(auto, using(crate::proofs::Printed::ten_zero))]
fn more_digits(s: &[u8], at: usize, first: u16) -> Parsed<u16>
    requires { (at < length s.now) × (first < 10) }
    ensures { place_at s.now at (more 3 first (drop (at + 1) s.now)) result }
{
    let mut value = first;
    for end in at + 1..at + 4 {
        let Some(d) = tokens::digit(s, end) else {
            return Parsed { value, end };
        };
        value = value * 10 + u16::from(d);
    }
    Parsed { value, end: at + 4 }
}

// The place that a step names: one to four digits, the first of several no 0.
#[tactic(auto, using(crate::proofs::Places::by_first_digit))]
fn read_place(s: &[u8], at: usize) -> Option<Parsed<u16>>
    ensures { place_tells s.now at (place (drop at s.now)) result }
{
    let first = tokens::digit(s, at)?;
    if first == 0 {
        return Some(Parsed {
            value: 0,
            end: at + 1,
        });
    }
    Some(more_digits(s, at, u16::from(first)))
}

// The place that a step names, with the line's end behind it.
#[tactic(auto, unfolding(crate::specs::Seen::closed_place))]
fn read_closed_place(s: &[u8], at: usize) -> Option<Parsed<u16>>
    ensures { place_tells s.now at (closed_place (drop at s.now)) result }
{
    let place = read_place(s, at)?;
    let end = tokens::word(s, place.end, b")\n")?;
    Some(Parsed {
        value: place.value,
        end,
    })
}

// A slip line: the number of its step.
#[tactic(auto, using(crate::proofs::Steps::by_word))]
fn read_step(s: &[u8], at: usize) -> Option<Parsed<u16>>
    requires { at ≤ length s.now }
    ensures { step_tells s.now at (slip_form (drop at s.now)) result }
{
    if let Some(p) = tokens::word(s, at, b"(pass ") {
        let place = read_closed_place(s, p)?;
        return Some(Parsed {
            value: place.value * 2,
            end: place.end,
        });
    }
    let p = tokens::word(s, at, b"(merge ")?;
    let place = read_closed_place(s, p)?;
    Some(Parsed {
        value: place.value * 2 + 1,
        end: place.end,
    })
}

// The lines of a slip, in order; the numbers of their steps are kept. Line 4,097 is one too many.
#[tactic(auto, using(crate::proofs::Kept::kept_first, crate::proofs::Kept::kept_all))]
fn load_lines(s: &[u8], steps: &mut [u16]) -> Result<usize, Refused>
    requires { 4096 ≤ length steps.old }
    ensures { (t : ℕ) → LoadsTo t (slip_lines t 0 (cut s.now)) steps.new result }
{
    let mut at = 0;
    let mut k = 0;
    while at < s.len() {
        let Some(step) = read_step(s, at) else {
            return Err(Refused {
                refusal: Refusal::Malformed,
                line: k + 1,
            });
        };
        if k == 4096 {
            return Err(Refused {
                refusal: Refusal::TooMany,
                line: k + 1,
            });
        }
        steps[k] = step.value;
        k += 1;
        at = step.end;
    }
    Ok(k)
}

// Loads a slip, whatever its text number t is: how many steps it has.
#[tactic(auto, using(crate::proofs::Lines::judged_overlong))]
pub fn load(s: &[u8], steps: &mut [u16]) -> Result<usize, Refused>
    requires { 4096 ≤ length steps.old }
    ensures { (t : ℕ) → LoadsTo t (slip_judged t s.now) steps.new result }
{
    if 60000 < s.len() {
        return Err(Refused {
            refusal: Refusal::Overlong,
            line: 0,
        });
    }
    load_lines(s, steps)
}
