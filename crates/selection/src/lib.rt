// A circuit with the fewest gates of those linked to it, its gates as numbers, brought into dictionary order: of the gates in front, which pass all
// that are left before them, the one of the lowest site is taken, again and again. `left` has the numbers by place, 0 where one has been taken.
//
// The gates on a line use it as target or as control, in runs of one kind, and gates of one run pass each other there. Of each line one run is
// open: `opened` has the first place whose use of the line is not open yet, `running` how many gates that use it are left before that place. A
// gate that is open on both of its lines is in front: its site is in the set `sites`, its place in `places`. When a run is used up, the next one
// is opened use by use, along the chains of next uses. A line is a slot: line c is c + 1, and 0 is none, which a NOT has as control.
//
// 0 for a gate that is taken and the count of gates for no next use are no Options: `rest`, `Numbers` and `NextUse` are stated over numbers.
#![tactic(auto)]

ghost use Rattle.std.specs.Prelude.{◌≡◌, ◌≢◌, ℕ, ◌≤◌, ◌<◌, length, take, get_or, set, replicate};
ghost use Rattle.gates.specs.Code.{gates, AllCodes};
ghost use Rattle.partners.specs.Shortest.{Shortest};
ghost use Rattle.selection.specs.Places.{rest, Numbers, opposite, line, Single};
ghost use Rattle.selection.specs.declared.Kind.TheVariants.{Target, Control};
ghost use Rattle.selection.specs.Runs.{NextUses, Lines, Differs};
ghost use Rattle.selection.specs.Taking.{Marks, State, Unopened, Marked, Opened, OpenedNext, Prepared, Taken, Ordered};

use sites::{Site, SiteSet};

// By place, the next use of the line that the gate has as target, and of the one that it has as control.
#[derive(Clone, Copy)]
struct Chains<'a> {
    target: &'a [u16],
    control: &'a [u16],
}

// What is open of each line, and which gates are in front.
#[derive(Drop)]
struct Front {
    opened: [u16; 33],
    running: [u16; 33],
    places: [u16; 1056],
    sites: SiteSet,
}

// How a gate uses a line.
#[derive(Clone, Copy)]
enum Kind {
    Target,
    Control,
}

impl Kind {
    // The other kind.
    fn opposite(self) -> Self
        ensures { result ≡ opposite self }
    {
        match self {
            Kind::Target => Kind::Control,
            Kind::Control => Kind::Target,
        }
    }

    // The line that the gate of number k uses in this way.
    fn line_of(self, k: u16) -> usize
        ensures { result ≡ line self k }
    {
        match self {
            Kind::Target => (k / 132) as usize + 1,
            Kind::Control => (k / 4 % 33) as usize,
        }
    }
}

// Notes the next uses of the lines of the gate of number k at place p: the first ones of the places after it; then it is the first itself.
fn note_place(
    next_target: &mut [u16],
    next_control: &mut [u16],
    opened: &mut [u16; 33],
    p: usize,
    k: u16,
)
    requires { (p < length next_target.old) × (p < length next_control.old) × (p < 4096) × (k < 4224) }
    ensures next_target_after { next_target.new ≡ set next_target.old p (get_or opened.old (line Target k) 0) }
    ensures next_control_after { next_control.new ≡ set next_control.old p (get_or opened.old (line Control k) 0) }
    ensures opened_after { opened.new ≡ set (set opened.old (line Target k) p) (line Control k) p }
{
    let target = Kind::Target.line_of(k);
    let control = Kind::Control.line_of(k);
    next_target[p] = opened[target];
    next_control[p] = opened[control];
    opened[target] = p as u16;
    opened[control] = p as u16;
}

// Notes the next uses of the lines of the gates, from the last to the first; the first uses are the result, and nothing is open then.
fn note_uses(left: &[u16], next_target: &mut [u16], next_control: &mut [u16]) -> [u16; 33]
    requires numbers { Numbers left.now (length left.now) }
    requires by_index { (i : ℕ) → i < length left.now → get_or left.now i 0 ≢ 0 }
    requires left_in_bounds { (length left.now ≤ length next_target.old) × (length left.now ≤ length next_control.old) }
    ensures { Unopened left.now (length left.now) next_target.new next_control.new result }
{
    let mut opened = [left.len() as u16; 33];
    for p in (0..left.len()).rev() {
        note_place(next_target, next_control, &mut opened, p, left[p]);
    }
    opened
}

impl Front {
    // Marks the gate of number k at place p, if its other line is open there too.
    fn mark(&mut self, p: usize, k: u16, other: usize)
        requires { (other < 33) × (p < 4096) × (k < 4224) }
        ensures marked { Marked self.old.opened self.old.places self.old.sites p k other self.new.places self.new.sites }
        ensures kept { (self.new.opened ≡ self.old.opened) × (self.new.running ≡ self.old.running) }
    {
        if self.opened[other] as usize <= p {
            return;
        }
        self.places[(k / 4) as usize] = p as u16;
        self.sites.insert(Site {
            target: (k / 132) as usize,
            slot: (k / 4 % 33) as usize,
        });
    }

    // Opens a run of line y, of one kind, use by use along the chain of that kind.
    fn open_run(&mut self, left: &[u16], next: &[u16], y: usize, kind: Kind)
        requires numbers { Numbers left.now (length left.now) }
        requires single { Single left.now }
        requires lines { Lines left.now (length left.now) self.old.opened self.old.running }
        requires marks { Marks left.now self.old.opened self.old.places self.old.sites }
        requires next_uses { NextUses left.now (length left.now) self.old.opened kind next.now }
        requires y_bound { (y < 33) × (length left.now ≤ length next.now) × (get_or self.old.running y 0 ≡ 0) }
        requires y_value { line kind (get_or left.now (get_or self.old.opened y 0) 0) ≡ y }
        ensures { Opened left.now (length left.now) y self.old.opened self.old.running
            self.new.opened self.new.running self.new.places self.new.sites }
    {
        let mut p = self.opened[y] as usize;
        while p < left.len() {
            let k = left[p];
            if kind.line_of(k) != y {
                return;
            }
            let q = next[p];
            self.opened[y] = q;
            self.running[y] += 1;
            self.mark(p, k, kind.opposite().line_of(k));
            p = q as usize;
        }
    }

    // Opens the next run of line y, if a use of it is left.
    fn open_next(&mut self, left: &[u16], next: &Chains, y: usize)
        requires numbers { Numbers left.now (length left.now) }
        requires single { Single left.now }
        requires state { State left.now (length left.now) next.now.target.now next.now.control.now
            self.old.opened self.old.running self.old.places self.old.sites }
        requires y_bound { (y < 33) × (get_or self.old.running y 0 ≡ 0) }
        ensures { OpenedNext left.now (length left.now) y next.now.target.now next.now.control.now self.old.opened self.old.running
            self.new.opened self.new.running self.new.places self.new.sites }
    {
        let p = self.opened[y] as usize;
        if left.len() <= p {
            return;
        }
        if Kind::Target.line_of(left[p]) == y {
            self.open_run(left, next.target, y, Kind::Target);
        } else {
            self.open_run(left, next.control, y, Kind::Control);
        }
    }

    // Opens the first run of every line.
    fn open_all(&mut self, left: &[u16], next: &Chains)
        requires numbers { Numbers left.now (length left.now) }
        requires shortest { Shortest 32 (gates (rest left.now)) }
        requires state { State left.now (length left.now) next.now.target.now next.now.control.now
            self.old.opened self.old.running self.old.places self.old.sites }
        requires running_value { self.old.running ≡ replicate 33 0 }
        ensures { Prepared left.now (length left.now) next.now.target.now next.now.control.now
            self.new.opened self.new.running self.new.places self.new.sites }
    {
        for y in 0..33 {
            self.open_next(left, next, y);
        }
    }

    // Opens the next run of line y, if the open one is used up.
    fn refresh(&mut self, left: &[u16], next: &Chains, y: usize)
        requires numbers { Numbers left.now (length left.now) }
        requires single { Single left.now }
        requires state { State left.now (length left.now) next.now.target.now next.now.control.now
            self.old.opened self.old.running self.old.places self.old.sites }
        requires y_bound { y < 33 }
        requires differs { get_or self.old.opened y 0 < length left.now → Differs left.now y (get_or self.old.opened y 0) }
        ensures { OpenedNext left.now (length left.now) y next.now.target.now next.now.control.now self.old.opened self.old.running
            self.new.opened self.new.running self.new.places self.new.sites }
    {
        if self.running[y] == 0 {
            self.open_next(left, next, y);
        }
    }

    // Takes the gate of the lowest site in front.
    fn take_lowest(&mut self, left: &mut [u16], next: &Chains) -> u16
        requires prepared { Prepared left.old (length left.old) next.now.target.now next.now.control.now
            self.old.opened self.old.running self.old.places self.old.sites }
        requires nonzero { 0 < length (rest left.old) }
        ensures { Taken left.old (length left.old) next.now.target.now next.now.control.now result left.new
            self.new.opened self.new.running self.new.places self.new.sites }
    {
        let site = self.sites.lowest();
        let line = site.target + 1;
        let p = self.places[site.target * 33 + site.slot] as usize;
        let k = left[p];
        left[p] = 0;
        self.sites.remove(site);
        self.running[line] -= 1;
        self.running[site.slot] -= 1;
        self.refresh(left, next, line);
        self.refresh(left, next, site.slot);
        k
    }

    // Puts the gates that are left into the list, in the order in which they are taken.
    fn take_all(&mut self, list: &mut [u16], left: &mut [u16], next: &Chains)
        requires prepared { Prepared left.old (length left.old) next.now.target.now next.now.control.now
            self.old.opened self.old.running self.old.places self.old.sites }
        requires rest_value { (length left.old ≤ length list.old) × (rest left.old ≡ take (length left.old) list.old) }
        ensures { Ordered list.old (length left.old) list.new }
    {
        for i in 0..left.len() {
            list[i] = self.take_lowest(left, next);
        }
    }
}

// Puts the gates of the list into dictionary order, with a copy of them to take from.
fn select(list: &mut [u16], left: &mut [u16], next_target: &mut [u16], next_control: &mut [u16])
    requires left_bound { length left.old ≤ 4096 }
    requires left_in_bounds { (length left.old ≤ length next_target.old) × (length left.old ≤ length next_control.old) }
    requires all_codes { AllCodes 32 left.old }
    requires shortest { Shortest 32 (gates left.old) }
    requires left_value { left.old ≡ list.old }
    ensures { Ordered list.old (length left.old) list.new }
{
    let mut front = Front {
        opened: note_uses(left, next_target, next_control),
        running: [0; 33],
        places: [0; 1056],
        sites: SiteSet::new(),
    };
    let next = Chains {
        target: next_target,
        control: next_control,
    };
    front.open_all(left, &next);
    front.take_all(list, left, &next);
}

// Brings a circuit with the fewest gates of those linked to it into dictionary order; the other three areas are lent to work in.
pub fn order(list: &mut [u16], left: &mut [u16], next_target: &mut [u16], next_control: &mut [u16])
    requires areas_len { (length left.old ≡ 4096) × (length next_target.old ≡ 4096) × (length next_control.old ≡ 4096) × (length list.old ≤ 4096) }
    requires all_codes { AllCodes 32 list.old }
    requires shortest { Shortest 32 (gates list.old) }
    ensures { Ordered list.old (length list.old) list.new }
{
    let left = &mut left[..list.len()];
    left.copy_from_slice(list);
    select(list, left, next_target, next_control);
}
