// The spare lines of an mct gate: the lines that it does not name and that nobody keeps. How many lines there are and which are kept are two arguments
// here and in the expansion: the head of a text has both, and nothing is known of texts below.
#![tactic(auto)]

ghost use Rattle.std.specs.Prelude.{◌≡◌, ◌∷◌, ◌++◌, ◌≤◌, ◌<◌, length};
ghost use Rattle.cascades.specs.Expansion.{mct_spares};
ghost use Rattle.cascades.specs.LineSets.{unpacked};
ghost use Rattle.cascades.specs.Cascade.{Below};
ghost use Rattle.spares.specs.Marks.{marks as marks_of, unmarked, marked_number, is_taken, none_left as all_taken};
ghost use Rattle.spares.specs.Spares.{Lists};

mod spare_lines;

pub use spare_lines::Spares;

// The set of the lines that have a mark, as a number: bit a is 1 if line a is in it.
pub fn packed(marks: [bool; 32]) -> u32
    ensures { result ≡ marked_number marks }
{
    let mut set = 0;
    for i in (0..32).rev() {
        set = 2 * set + u32::from(marks[i]);
    }
    set
}

// The lines of a set, each with a mark.
fn unpacked_marks(set: u32) -> [bool; 32]
    ensures { result ≡ marks_of (unpacked 32 0 set) }
{
    let mut marks = [false; 32];
    let mut rest = set;
    for mark in &mut marks {
        *mark = rest % 2 == 1;
        rest /= 2;
    }
    marks
}

// The kept lines and those that a gate names, each with a mark.
fn named(kept: u32, controls: &[u8], target: u8) -> [bool; 32]
    requires target_bound { target < 32 }
    requires below { Below 32 controls.now }
    ensures { result ≡ marks_of (unpacked 32 0 kept ++ (target ∷ controls.now)) }
{
    let mut marks = unpacked_marks(kept);
    marks[usize::from(target)] = true;
    for c in controls {
        marks[usize::from(*c)] = true;
    }
    marks
}

// All lines without a mark, rising.
fn unmarked_lines(marks: [bool; 32], lines: u8) -> Spares
    requires { lines ≤ 32 }
    ensures { Lists result 0 (length (unmarked lines 0 marks)) (unmarked lines 0 marks) }
{
    let mut found = [0; 32];
    let mut count = 0;
    for i in 0..lines {
        if !marks[usize::from(i)] {
            found[count] = i;
            count += 1;
        }
    }
    Spares {
        lines: found,
        first: 0,
        end: count,
    }
}

// The spares of an mct: all lines that it names neither as control nor as target and that are not kept, rising.
pub fn unnamed(lines: u8, kept: u32, controls: &[u8], target: u8) -> Spares
    requires lines_bound { lines ≤ 32 }
    requires target_lt_lines { target < lines }
    requires below { Below lines controls.now }
    ensures { Lists result 0 (length (mct_spares lines (unpacked 32 0 kept) controls.now target)) (mct_spares lines (unpacked 32 0 kept) controls.now target) }
{
    unmarked_lines(named(kept, controls, target), lines)
}

// Whether a line is taken: its digit in the set, the lowest, is 1, it is the target, or it has a mark.
fn taken(set: u32, i: u8, target: u8, marked: bool) -> bool
    ensures { result ≡ is_taken set i target marked }
{
    set % 2 == 1 || i == target || marked
}

// Whether an mct has no spare: each line has a mark, as a control, is the target, or is kept.
pub fn none_left(lines: u8, kept: u32, marks: [bool; 32], target: u8) -> bool
    requires { lines ≤ 32 }
    ensures { result ≡ all_taken lines 0 kept marks target }
{
    let mut rest = kept;
    for i in 0..lines {
        if !taken(rest, i, target, marks[usize::from(i)]) {
            return false;
        }
        rest /= 2;
    }
    true
}
