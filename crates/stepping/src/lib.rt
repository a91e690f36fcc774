// The steps of a slip on a circuit, which is changed in place. A gate is its number; so is a step: its place times 2, plus 0 for a pass and 1 for
// a merge. A circuit is the first m numbers of a lent slice, as it grows shorter in place: memory is fixed, there is no heap.
#![tactic(auto)]

ghost use Rattle.std.specs.Prelude.{◌≡◌, ◌-◌, ◌≤◌, ◌<◌, length, take};
ghost use Rattle.gates.specs.Circuit.{Passes};
ghost use Rattle.gates.specs.Sites.{Same};
ghost use Rattle.gates.specs.Code.{gate, gates};
ghost use Rattle.gates.specs.Whether.{Whether};
ghost use Rattle.stepping.specs.Slip.{passing, merging, at_place, effect, run as run_slip};
ghost use Rattle.stepping.specs.Stepped.{slip_step, slip_steps, without, Circuit, StepsTo, RunsTo};

// A step that is not allowed, by its line of the slip.
#[derive(Clone, Copy)]
pub struct NotAllowed {
    pub line: usize,
}

// Takes the gate at i, counted from 0, out of the first m; those behind it move up by one place.
#[tactic(auto, using(crate::proofs::Removed::removed))]
fn remove(codes: &mut [u16], m: usize, i: usize)
    requires { (i < m) × (m ≤ length codes.old) }
    ensures { take (m - 1) codes.new ≡ without i (take m codes.old) }
{
    codes.copy_within(i + 1..m, i);
}

// Whether two gates pass: neither's target is the other's control.
#[tactic(auto, using(crate::proofs::Tests::first_on_control, crate::proofs::Tests::whether_pass))]
fn pass(a: u16, b: u16) -> bool
    ensures { Whether (Passes (gate a) (gate b)) result }
{
    a / 132 + 1 != b / 4 % 33 && b / 132 + 1 != a / 4 % 33
}

// Whether two gates have the same target, and the same control or none.
#[tactic(auto, using(crate::proofs::Tests::whether_one_site))]
fn one_site(a: u16, b: u16) -> bool
    ensures { Whether (Same (gate a) (gate b)) result }
{
    a / 4 == b / 4
}

// The pass at place i, counted from 1, which has a right neighbour.
#[tactic(auto, using(crate::proofs::OnCodes::pass_refused))]
fn pass_at(codes: &mut [u16], m: usize, i: usize, line: usize) -> Result<usize, NotAllowed>
    requires le_i { (1 ≤ i) × (i < m) }
    requires circuit { Circuit m codes.old }
    ensures { StepsTo (at_place passing i (gates (take m codes.old))) line codes.old codes.new result }
{
    if !pass(codes[i - 1], codes[i]) {
        return Err(NotAllowed { line });
    }
    codes.swap(i - 1, i);
    Ok(m)
}

// The merge at place i, counted from 1, which has a right neighbour: the powers add modulo 4, and a gate of power 0 vanishes. A NOT has the
// power 2, so that two of them vanish.
#[tactic(auto, using(crate::proofs::OnCodes::merge_refused))]
fn merge_at(codes: &mut [u16], m: usize, i: usize, line: usize) -> Result<usize, NotAllowed>
    requires le_i { (1 ≤ i) × (i < m) }
    requires circuit { Circuit m codes.old }
    ensures { StepsTo (at_place merging i (gates (take m codes.old))) line codes.old codes.new result }
{
    let a = codes[i - 1];
    let b = codes[i];
    if !one_site(a, b) {
        return Err(NotAllowed { line });
    }
    remove(codes, m, i);
    let power = (a % 4 + b % 4) % 4;
    if power == 0 {
        remove(codes, m - 1, i - 1);
        return Ok(m - 2);
    }
    codes[i - 1] = a / 4 * 4 + power;
    Ok(m - 1)
}

// One step of a slip, on this line of it, on the first m gates.
#[tactic(auto, using(crate::proofs::Running::effect_pass, crate::proofs::Running::effect_merge))]
pub fn step(codes: &mut [u16], m: usize, step: u16, line: usize) -> Result<usize, NotAllowed>
    requires { Circuit m codes.old }
    ensures { StepsTo (effect (slip_step step) (gates (take m codes.old))) line codes.old codes.new result }
{
    let i = usize::from(step / 2);
    if i == 0 || m <= i {
        return Err(NotAllowed { line });
    }
    // A step stays a number here too: an enum read off it would be taken apart again in the next line.
    if step % 2 == 0 {
        pass_at(codes, m, i, line)
    } else {
        merge_at(codes, m, i, line)
    }
}

// The slip of these steps, the first of them on line 1, on the first m gates. Each step's answer is taken apart: the number of gates of the next
// circuit, or the refusal.
pub fn run(codes: &mut [u16], m: usize, steps: &[u16]) -> Result<usize, NotAllowed>
    requires { Circuit m codes.old }
    ensures { RunsTo (run_slip (slip_steps steps.now) (gates (take m codes.old))) codes.old codes.new result }
{
    let mut n = m;
    for (i, &s) in steps.iter().enumerate() {
        let answer = step(codes, n, s, i + 1);
        let Ok(left) = answer else {
            return answer;
        };
        n = left;
    }
    Ok(n)
}
