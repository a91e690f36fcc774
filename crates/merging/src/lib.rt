// Gates merged with their partners, in place and in one pass (document 001, section III.C: stacks of gates, looked at from the top, pulled and
// pushed). Each gate in turn looks for its partner among those before it. The two merge in the partner's place, and what has become the identity
// is removed; a gate without partner is pushed at the end.
//
// A gate is its number, and a removed one keeps its place with the power 0, until the gaps are closed.
#![tactic(auto)]

ghost use Rattle.std.specs.Prelude.{◌≡◌, ◌+◌, ◌*◌, ◌/◌, ◌≤◌, ◌<◌, length, get_or, set};
ghost use Rattle.gates.specs.Code.{Code, AllCodes, joined};
ghost use Rattle.stacks.specs.Holding.{Holds};
ghost use Rattle.merging.specs.Merged.{Codes, Stepped, Kept, Closed, MergedTo};

use stacks::{GateStacks, StackSet};

// What stands at j has become the identity: its power is 0, its target and control stay for the stacks.
fn remove(list: &mut [u16], j: usize)
    requires { j < length list.old }
    ensures { list.new ≡ set list.old j (get_or list.old j 0 / 4 * 4) }
{
    list[j] = list[j] / 4 * 4;
}

// Merges g into its partner at j: the powers add modulo 4, and a gate of power 0 is removed.
fn merge(list: &mut [u16], j: usize, g: u16)
    requires { j < length list.old }
    ensures { list.new ≡ set list.old j (joined (get_or list.old j 0) g) }
{
    let a = list[j];
    let power = (a % 4 + g % 4) % 4;
    if power == 0 {
        remove(list, j);
        return;
    }
    list[j] = a / 4 * 4 + power;
}

// Puts g at place n, the end, and on its three stacks.
fn push(list: &mut [u16], stacks: &mut GateStacks<'_>, n: usize, g: u16)
    requires n_in_bounds { (n < length list.old) × (n < 4096) × (g < 4224) }
    requires stacked { Holds stacks.old list.old n }
    ensures list_after { list.new ≡ set list.old n g }
    ensures stacked_2 { Holds stacks.new list.new (n + 1) }
{
    list[n] = g;
    stacks.push(list, n);
}

// Merges g with its partner, or pushes it; gives the number of places in use. These are the front of the list, which grows and shrinks in place.
fn step(list: &mut [u16], stacks: &mut GateStacks<'_>, n: usize, g: u16) -> usize
    requires n_in_bounds { (n < length list.old) × (n < 4096) }
    requires codes { Codes list.old n }
    requires code { Code 32 g }
    requires stacked { Holds stacks.old list.old n }
    ensures stepped { Stepped list.old n g result list.new }
    ensures stacked_2 { Holds stacks.new list.new result }
{
    match stacks.find_partner(list, n, g) {
        Some(j) => {
            merge(list, j, g);
            n
        }
        None => {
            push(list, stacks, n, g);
            n + 1
        }
    }
}

// Puts x at place r, if it is a gate that is still there, and gives the place after.
fn keep(list: &mut [u16], r: usize, x: u16) -> usize
    requires { (r < length list.old) × (r < 4096) }
    ensures { Kept list.old r x result list.new }
{
    if x % 4 == 0 {
        return r;
    }
    list[r] = x;
    r + 1
}

// Closes the gaps that removed gates left among the first n; the others stay in order.
fn close_gaps(list: &mut [u16], n: usize) -> usize
    requires { (n ≤ length list.old) × (n ≤ 4096) }
    ensures { Closed list.old n result list.new }
{
    let mut r = 0;
    for i in 0..n {
        let x = list[i];
        r = keep(list, r, x);
    }
    r
}

// Merges each gate with its partner among those before it, if it has one; what is left stays in order, in front, and its number is given.
// The three slices below_* are lent for the stacks: nothing is asked of what they hold, and nothing said of what they hold afterwards.
pub fn merge_partners(
    list: &mut [u16],
    below_site: &mut [u16],
    below_target: &mut [u16],
    below_control: &mut [u16],
) -> usize
    requires list_len { length list.old ≤ 4096 }
    requires all_codes { AllCodes 32 list.old }
    requires below_site_len { (length below_site.old ≡ 4096) × (length below_target.old ≡ 4096) × (length below_control.old ≡ 4096) }
    ensures { MergedTo list.old (length list.old) result list.new }
{
    let mut sites = [0u16; 1056];
    let mut targets = [0u16; 33];
    let mut controls = [0u16; 33];
    let mut stacks = GateStacks::new(
        StackSet::new(&mut sites, below_site),
        StackSet::new(&mut targets, below_target),
        StackSet::new(&mut controls, below_control),
    );
    let mut n = 0;
    for i in 0..list.len() {
        let g = list[i];
        n = step(list, &mut stacks, n, g);
    }
    close_gaps(list, n)
}
