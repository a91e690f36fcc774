// The partner of a gate, found by stacks of gates that are looked at from the top (document 001, section III.C).
//
// A gate is its number. Three sets of stacks hold the places of gates: a stack for each site (target and control together), for each target, for
// each control. Lines count from 1 there, and 0 is the control of a NOT. A removed gate keeps its target and control, with the power 0, and is
// pulled when it is next found at the top. So each place is pulled at most once from each of its three stacks, and the search costs a constant per
// gate, amortised.
#![tactic(auto)]

ghost use Rattle.std.specs.Prelude.{◌≡◌, List, ℕ, ◌+◌, ◌*◌, ◌/◌, ◌≤◌, ◌<◌, length, get_or, set};
ghost use Rattle.stacks.specs.Stacks.{Falls, TopGate, Pulled, Stacked};
ghost use Rattle.stacks.specs.Found.{Found};
ghost use Rattle.stacks.specs.Holding.{IsEmpty, Holds, SameBelow};

// The last gate that is still there in the stack from `top` on, plus 1, or 0.
fn top_gate(list: &[u16], below: &[u16], top: u16) -> u16
    requires top_in_bounds { (top ≤ length list.now) × (top ≤ length below.now) }
    requires falls { Falls below.now top }
    ensures { TopGate list.now below.now top result }
{
    let mut h = top;
    while 0 < h {
        let q = (h - 1) as usize;
        if 0 < list[q] % 4 {
            return h;
        }
        h = below[q];
    }
    h
}

// Pulls removed gates from the top of stack k, and gives its top.
fn pull_removed(list: &[u16], tops: &mut [u16], below: &[u16], k: usize) -> u16
    requires k_in_bounds { k < length tops.old }
    requires top_in_bounds { (get_or tops.old k 0 ≤ length list.now) × (get_or tops.old k 0 ≤ length below.now) }
    requires falls { Falls below.now (get_or tops.old k 0) }
    ensures { Pulled list.now below.now k tops.old result tops.new }
{
    let top = top_gate(list, below, tops[k]);
    tops[k] = top;
    top
}

// Where the partner of g stands among the first n places, as the method below says it, in stacks that the caller has and need not have built here:
// their tops are pulled, and what lies below a place is only read. The borrow checker covers no call in which a set of stacks that is itself lent
// lends both of its slices, so the search stands here and there.
pub fn find_partner(
    list: &[u16],
    sites: &mut [u16],
    targets: &mut [u16],
    controls: &mut [u16],
    below_site: &[u16],
    below_target: &[u16],
    below_control: &[u16],
    n: usize,
    g: u16,
) -> Option<usize>
    requires n_in_bounds { (n ≤ length list.now) × (n ≤ 4096) × (g < 4224) }
    requires stacked { Stacked list.now n sites.old targets.old controls.old below_site.now below_target.now below_control.now }
    ensures found { Found list.now n g result }
    ensures stacked_2 { Stacked list.now n sites.new targets.new controls.new below_site.now below_target.now below_control.now }
{
    let site = (g / 4) as usize;
    let alike = pull_removed(list, sites, below_site, site);
    if alike == 0 {
        return None;
    }
    let changes = pull_removed(list, targets, below_target, site % 33);
    if alike < changes {
        return None;
    }
    let reads = pull_removed(list, controls, below_control, site / 33 + 1);
    if alike < reads {
        return None;
    }
    Some((alike - 1) as usize)
}

// A set of stacks: `tops` has, for each stack, the place on top plus 1, or 0 if it is empty; `below` has, for each place, the one below it in its
// stack, in the same way. These are numbers and no Option, since `Stacked` speaks of them and `below` is lent as numbers.
// `tops` is lent too: an array in the struct was slower, as the addresses of the slices were then read from memory for each gate.
#[derive(Drop)]
pub struct StackSet<'a> {
    tops: &'a mut [u16],
    below: &'a mut [u16],
}

// The three sets of stacks, for each site, each target and each control.
#[derive(Drop)]
pub struct GateStacks<'a> {
    sites: StackSet<'a>,
    targets: StackSet<'a>,
    controls: StackSet<'a>,
}

impl<'a> StackSet<'a> {
    // As many stacks as `tops` has places, empty if these are 0; then nothing is asked of what `below` holds.
    pub fn new(tops: &'a mut [u16], below: &'a mut [u16]) -> StackSet<'a>
        ensures tops { result.tops.now ≡ tops.old }
        ensures below { result.below.now ≡ below.old }
    {
        StackSet { tops, below }
    }

    // The last gate that is still there in stack k, plus 1, or 0.
    fn top_gate(&self, list: &[u16], k: usize) -> u16
        requires k_in_bounds { k < length self.now.tops.now }
        requires top_in_bounds { (get_or self.now.tops.now k 0 ≤ length list.now) × (get_or self.now.tops.now k 0 ≤ length self.now.below.now) }
        requires falls { Falls self.now.below.now (get_or self.now.tops.now k 0) }
        ensures { TopGate list.now self.now.below.now (get_or self.now.tops.now k 0) result }
    {
        top_gate(list, self.below, self.tops[k])
    }

    // Pulls removed gates from the top of stack k, and gives its top.
    fn pull_removed(&mut self, list: &[u16], k: usize) -> u16
        requires k_in_bounds { k < length self.old.tops.now }
        requires top_in_bounds { (get_or self.old.tops.now k 0 ≤ length list.now) × (get_or self.old.tops.now k 0 ≤ length self.old.below.now) }
        requires falls { Falls self.old.below.now (get_or self.old.tops.now k 0) }
        ensures pulled { Pulled list.now self.old.below.now k self.old.tops.now result self.new.tops.now }
        ensures below { self.new.below.now ≡ self.old.below.now }
    {
        let top = self.top_gate(list, k);
        self.tops[k] = top;
        top
    }

    // Puts place n on top of stack k.
    fn push(&mut self, n: usize, k: usize)
        requires { (k < length self.old.tops.now) × (n < length self.old.below.now) × (n < 4096) }
        ensures tops { self.new.tops.now ≡ set self.old.tops.now k (n + 1) }
        ensures below { self.new.below.now ≡ set self.old.below.now n (get_or self.old.tops.now k 0) }
    {
        self.below[n] = self.tops[k];
        self.tops[k] = (n + 1) as u16;
    }
}

impl<'a> GateStacks<'a> {
    // The three sets, of empty stacks.
    pub fn new(sites: StackSet<'a>, targets: StackSet<'a>, controls: StackSet<'a>) -> GateStacks<'a>
        requires sites { IsEmpty 1056 sites }
        requires targets { IsEmpty 33 targets }
        requires controls { IsEmpty 33 controls }
        ensures { (list : List ℕ) → Holds result list 0 }
    {
        GateStacks {
            sites,
            targets,
            controls,
        }
    }

    // Where the partner of g stands among the first n places, if it has one: the gate at the top of the stack of its target and control, if no later
    // gate has g's control as its target or g's target as its control.
    pub fn find_partner(&mut self, list: &[u16], n: usize, g: u16) -> Option<usize>
        requires n_in_bounds { (n ≤ length list.now) × (n ≤ 4096) × (g < 4224) }
        requires stacked { Holds self.old list.now n }
        ensures found { Found list.now n g result }
        ensures stacked_2 { Holds self.new list.now n }
        ensures below { SameBelow self.old self.new }
    {
        let site = (g / 4) as usize;
        let target = site / 33 + 1;
        let control = site % 33;
        let s = self.sites.pull_removed(list, site);
        if s == 0 {
            return None;
        }
        let t = self.targets.pull_removed(list, control);
        if s < t {
            return None;
        }
        let c = self.controls.pull_removed(list, target);
        if s < c {
            return None;
        }
        Some((s - 1) as usize)
    }

    // Puts the gate at place n on its three stacks.
    pub fn push(&mut self, list: &[u16], n: usize)
        requires n_in_bounds { (n < length list.now) × (n < 4096) × (get_or list.now n 0 < 4224) }
        requires stacked { Holds self.old list.now n }
        ensures { Holds self.new list.now (n + 1) }
    {
        let site = (list[n] / 4) as usize;
        self.sites.push(n, site);
        self.targets.push(n, site / 33 + 1);
        self.controls.push(n, site % 33);
    }
}
