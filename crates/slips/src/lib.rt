// The job slip: do the steps that a customer sends lead from one circuit to the other.
#![tactic(auto)]

ghost use Rattle.std.specs.Prelude.{◌≤◌, length, take};
ghost use Rattle.gates.specs.Code.{gates};
ghost use Rattle.stepping.specs.Stepped.{Circuit};
ghost use Rattle.loading.specs.Loaded.{Renderable};
ghost use Rattle.jobs.specs.Handing.{exit_of_two};
ghost use Rattle.slips.specs.Slip.{same_end, judged, Slip, Hands, check_loaded, ChecksTo};

use gates::Gate;
use loading::Loaded;
use records::{DoneTwo, GATES, TextOutcome};
use text::{Kind, Refusal, TextRefused};

// Whether the steps ended at the second circuit: the first e codes are its codes.
#[tactic(auto, using(crate::proofs::Checking::other_codes))]
fn check_end(e: usize, codes: &[u16], second: Loaded, codes2: &[u16]) -> Result<Loaded, TextRefused>
    requires { Circuit e codes.now × (second.gates ≤ length codes2.now) × Renderable second.head second.gates codes2.now }
    ensures { ChecksTo (same_end (gates (take e codes.now)) (gates (take second.gates codes2.now))) codes.now codes2.now result }
{
    if codes[..e] != codes2[..second.gates] {
        return Err(TextRefused {
            refusal: Refusal::OtherEnd,
            text: 0,
            line: 0,
        });
    }
    Ok(second)
}

// The steps on the first circuit, if both circuits have the same number of lines.
#[tactic(auto, using(crate::proofs::Checking::loaded_cases))]
fn check_steps(
    first: Loaded,
    codes: &mut [u16],
    steps: &[u16],
    second: Loaded,
    codes2: &[u16],
) -> Result<Loaded, TextRefused>
    requires in_bounds { (4096 ≤ length codes.old) × (4096 ≤ length codes2.now) }
    requires renderable { Renderable first.head first.gates codes.old × Renderable second.head second.gates codes2.now }
    ensures { ChecksTo (check_loaded first codes.old steps.now second codes2.now) codes.new codes2.now result }
{
    if first.head.lines != second.head.lines {
        return Err(TextRefused {
            refusal: Refusal::DifferentLines,
            text: 0,
            line: 0,
        });
    }
    match stepping::run(codes, first.gates, steps) {
        Ok(e) => check_end(e, codes, second, codes2),
        Err(step) => Err(TextRefused {
            refusal: Refusal::NotAllowed,
            text: 2,
            line: step.line,
        }),
    }
}

// Loads the three texts in their order, where the gate lists have `room` and `room2` records, and checks the slip.
fn check(
    first: &[u8],
    room: usize,
    slip: &[u8],
    second: &[u8],
    room2: usize,
    codes: &mut [u16],
    codes2: &mut [u16],
) -> Result<Loaded, TextRefused>
    requires { (4096 ≤ length codes.old) × (4096 ≤ length codes2.old) }
    ensures { ChecksTo (judged first.now room slip.now second.now room2) codes.new codes2.new result }
{
    let first = jobs::load_text(Kind::Circuit, first, room, codes).map_err(|r| r.in_text(1))?;
    // A slip has as many lines at most as a text has gates.
    let mut steps = [0u16; GATES];
    let k = sliptext::load(slip, &mut steps).map_err(|r| r.in_text(2))?;
    let second = jobs::load_text(Kind::Circuit, second, room2, codes2).map_err(|r| r.in_text(3))?;
    check_steps(first, codes, &steps[..k], second, codes2)
}

// The covered part of slip.
pub fn slip_codes(first: &[u8], room: usize, slip: &[u8], second: &[u8], room2: usize) -> DoneTwo
    ensures { Hands first.now room slip.now second.now room2 result }
{
    let mut codes = [0u16; GATES];
    let mut codes2 = [0u16; GATES];
    match check(first, room, slip, second, room2, &mut codes, &mut codes2) {
        Ok(second) => {
            let m = second.gates;
            outcomes::succeed_two(m, m, 0, room, room2, codes, codes2)
        }
        Err(refused) => outcomes::refuse_two(refused, room, room2, codes, codes2),
    }
}

// Checks a slip, the steps that lead from one circuit text to another on the same number of lines.
pub fn slip(
    first: &[u8],
    first_list: &mut [Gate],
    slip: &[u8],
    second: &[u8],
    second_list: &mut [Gate],
) -> TextOutcome
    ensures { Slip first.now first_list.old slip.now second.now second_list.old (exit_of_two result first_list.new second_list.new) }
{
    let d = slip_codes(first, first_list.len(), slip, second, second_list.len());
    records::fill(first_list, d.first);
    records::fill(second_list, d.second);
    d.outcome
}
