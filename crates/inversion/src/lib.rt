// The job invert: a circuit that undoes the one read.
#![tactic(auto)]

ghost use Rattle.std.specs.Prelude.{◌≤◌, length};
ghost use Rattle.text.specs.declared.Kind.TheVariants.{Circuit};
ghost use Rattle.jobs.specs.Jobs.{judged_text};
ghost use Rattle.jobs.specs.Handing.{LoadsReduced};
ghost use Rattle.inversion.specs.Invert.{inverse_judged, Invert, Hands};

use gates::Gate;
use loading::Loaded;
use records::{Done, GATES, Outcome};
use text::{Kind, Refused};

// Loads a circuit text, where the gate list has `room` records, inverts its circuit and reduces the inverse.
fn load_inverse(text: &[u8], room: usize, codes: &mut [u16]) -> Result<Loaded, Refused>
    requires { 4096 ≤ length codes.old }
    ensures { LoadsReduced (inverse_judged (judged_text Circuit text.now room)) codes.new result }
{
    let loaded = jobs::load_text(Kind::Circuit, text, room, codes)?;
    composition::invert(&mut codes[..loaded.gates]);
    Ok(jobs::reduce_loaded(loaded, codes))
}

// The covered part of invert.
pub fn invert_codes(text: &[u8], room: usize, answer: &mut [u8]) -> Done<Outcome>
    ensures { Hands text.now room answer.old result answer.new }
{
    let mut codes = [0u16; GATES];
    let loaded = load_inverse(text, room, &mut codes);
    jobs::answer_loaded(Kind::Circuit, loaded, room, codes, answer)
}

// Inverts a circuit text: its gates reversed, with v and vp exchanged, and then reduced.
pub fn invert(text: &[u8], list: &mut [Gate], answer: &mut [u8]) -> Outcome
    ensures { Invert (record { text = text.entry.now; list = list.old; area = answer.old }) (record { number = result.number; line = result.line; gates = result.gates; bytes = result.bytes; list = list.new; area = answer.new }) }
{
    let d = invert_codes(text, list.len(), answer);
    records::fill(list, d.filling);
    d.outcome
}
