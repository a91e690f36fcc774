// What is kept of the controls of an mct line, gathered one after the other.
#![tactic(auto)]

ghost use Rattle.std.specs.Prelude.{◌≡◌, ◌+◌, ◌<◌, ◌^◌};
ghost use Rattle.gathering.specs.Gathering.{added, no_lines, noted, no_controls};

use cascades::Control;

// Lines in order: how many there are, and the first sixteen of them, in an array, since nothing is allocated.
#[derive(Clone, Copy)]
pub struct LineList {
    pub count: usize,
    pub first: [u8; 16],
}

// What is kept of the controls of an mct line: a mark for each line that is a control, their lines in order and those of the negated ones,
// whether each is above the one before it, the last and the largest of them.
#[derive(Clone, Copy)]
pub struct Controls {
    pub marks: [bool; 32],
    pub lines: LineList,
    pub negated: LineList,
    pub rising: bool,
    pub last: u8,
    pub largest: u8,
}

impl LineList {
    // No lines.
    fn none() -> LineList
        ensures { result ≡ no_lines }
    {
        LineList {
            count: 0,
            first: [0; 16],
        }
    }

    // One line more.
    fn add(&mut self, line: u8)
        requires { self.old.count + 1 < 2 ^ 64 }
        ensures { self.new ≡ added self.old line }
    {
        if self.count < 16 {
            self.first[self.count] = line;
        }
        self.count += 1;
    }
}

// What is kept of no controls.
pub fn no_controls() -> Controls
    ensures { result ≡ no_controls }
{
    Controls {
        marks: [false; 32],
        lines: LineList::none(),
        negated: LineList::none(),
        rising: true,
        last: 0,
        largest: 0,
    }
}

// One control more.
pub fn note(a: Controls, c: Control) -> Controls
    requires { (a.lines.count + 1 < 2 ^ 64) × (a.negated.count + 1 < 2 ^ 64) }
    ensures { result ≡ noted a c }
{
    let line = c.line;
    let mut marks = a.marks;
    if line < 32 {
        marks[usize::from(line)] = true;
    }
    let mut lines = a.lines;
    lines.add(line);
    let mut negated = a.negated;
    if c.negated {
        negated.add(line);
    }
    Controls {
        marks,
        lines,
        negated,
        rising: a.rising && (a.lines.count == 0 || a.last < line),
        last: line,
        largest: a.largest.max(line),
    }
}
