// What the rules say of a line in form: rules 4 to 9, tried in order.
#![tactic(auto)]

ghost use Rattle.std.specs.Prelude.{◌≡◌, false, ◌&&◌, ◌≤◌, leb, get_or};
ghost use Rattle.spares.specs.Marks.{none_left};
ghost use Rattle.rules.specs.Verdicts.{seen_verdict, tried, over, GateVerdict, MctVerdict};

use gates::Gate;
use gathering::Controls;
use text::{Head, Refusal};

// Rules 4 to 9, of which 8 is tried before 7. What was tested are six arguments: a struct of them would be taken apart in the next line.
fn try_rules(
    outside: bool,
    crossed: bool,
    rising: bool,
    spareless: bool,
    wide: bool,
    many: bool,
) -> Result<(), Refusal>
    ensures { seen_verdict result ≡ tried outside crossed rising spareless wide many }
{
    if outside {
        return Err(Refusal::NoSuchLine);
    }
    if crossed {
        return Err(Refusal::Crossed);
    }
    if !rising {
        return Err(Refusal::Unsorted);
    }
    if spareless {
        return Err(Refusal::NoSpare);
    }
    if wide {
        return Err(Refusal::TooWide);
    }
    if many {
        return Err(Refusal::TooMany);
    }
    Ok(())
}

// The rules for a gate of a circuit, after `before` gates.
pub fn gate_rules(head: Head, g: Gate, before: usize) -> Result<(), Refusal>
    ensures { GateVerdict head g before result }
{
    let n = head.lines;
    let many = 4096 <= before;
    match g {
        Gate::Not(t) => try_rules(n <= t, false, true, false, false, many),
        Gate::Powered(_, c, t) => { try_rules(n <= t || n <= c, t == c, true, false, false, many) }
    }
}

// Whether line t has a mark.
fn marked(marks: [bool; 32], t: u8) -> bool
    ensures { result ≡ get_or marks t false }
{
    if 32 <= t {
        return false;
    }
    marks[t as usize]
}

// Whether a gate with k controls, which have these marks, needs a spare line and has none.
fn no_spare(head: Head, k: usize, marks: [bool; 32], t: u8) -> bool
    requires { head.lines ≤ 32 }
    ensures { result ≡ (leb 3 k && none_left head.lines 0 head.kept marks t) }
{
    if k < 3 {
        return false;
    }
    spares::none_left(head.lines, head.kept, marks, t)
}

// Whether a gate with k controls, some of them negated, is the 257th, or its expansion goes past 4,096 gates: its count is read from the table,
// and there are two NOTs more for each negated control.
fn too_many(before: usize, total: usize, k: usize, negated: usize) -> bool
    requires { (total ≤ 4096) × (negated ≤ k) }
    ensures { result ≡ over before total k negated }
{
    if 256 <= before {
        return true;
    }
    if 15 < k {
        return false;
    }
    4096 < total + expansion::count(k) + 2 * negated
}

// The rules for an mct gate, after `before` mct gates whose expansions have `total` gates.
pub fn mct_rules(head: Head, t: u8, a: Controls, before: usize, total: usize) -> Result<(), Refusal>
    requires le_lines { (1 ≤ head.lines) × (head.lines ≤ 32) }
    requires total_bound { (total ≤ 4096) × (a.negated.count ≤ a.lines.count) }
    ensures { MctVerdict head t a before total result }
{
    let n = head.lines;
    let lines = a.lines;
    let k = lines.count;
    let negated = a.negated;
    let outside = n <= t || n <= a.largest;
    let marks = a.marks;
    let crossed = marked(marks, t);
    let spareless = no_spare(head, k, marks, t);
    let many = too_many(before, total, k, negated.count);
    try_rules(outside, crossed, a.rising, spareless, 15 < k, many)
}
