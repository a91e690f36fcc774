// The tokens of a line, numbers and fixed bytes, read at a place of the text; the place after them is given. Text and place are two arguments in all
// that reads a line: what is read is said of the bytes from the place on, and each function hands on a place of its own. `Reader` has both above.
#![tactic(auto)]

ghost use Rattle.std.specs.Prelude.{◌≤◌, length, drop};
ghost use Rattle.text.specs.Reading.{num, strip};
ghost use Rattle.tokens.specs.Seen.{delimited, digit_tells, tells, found_tells};

// What was read, and the place after it.
#[derive(Clone, Copy)]
pub struct Parsed<T> {
    pub value: T,
    pub end: usize,
}

// The digit at a place, by its value.
pub fn digit(s: &[u8], at: usize) -> Option<u8>
    ensures { digit_tells s.now at result }
{
    let &b = s.get(at)?;
    if !b.is_ascii_digit() {
        return None;
    }
    Some(b - b'0')
}

// A number: one or two digits, the first of two no 0.
fn one_number(s: &[u8], at: usize) -> Option<Parsed<u8>>
    ensures { tells s.now at (num (drop at s.now)) result }
{
    let a = digit(s, at)?;
    let one = Parsed {
        value: a,
        end: at + 1,
    };
    if a == 0 {
        return Some(one);
    }
    let Some(b) = digit(s, one.end) else {
        return Some(one);
    };
    Some(Parsed {
        value: a * 10 + b,
        end: at + 2,
    })
}

// Fixed bytes at a place: the place after them.
pub fn word(s: &[u8], at: usize, w: &[u8]) -> Option<usize>
    requires { at ≤ length s.now }
    ensures { found_tells s.now at (strip w.now (drop at s.now)) tt result }
{
    if s[at..].starts_with(w) {
        return Some(at + w.len());
    }
    None
}

// A number between fixed bytes: `w` before it, `v` after it.
pub fn delimited_number(s: &[u8], at: usize, w: &[u8], v: &[u8]) -> Option<Parsed<u8>>
    requires { at ≤ length s.now }
    ensures { tells s.now at (delimited w.now v.now (drop at s.now)) result }
{
    let start = word(s, at, w)?;
    let number = one_number(s, start)?;
    let end = word(s, number.end, v)?;
    Some(Parsed {
        value: number.value,
        end,
    })
}
