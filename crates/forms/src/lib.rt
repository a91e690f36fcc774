// What the programs over several texts write: a refusal with its text number, and words.
#![tactic(auto)]

ghost use Rattle.std.specs.Prelude.{◌≡◌, ◌++◌, ◌+◌, ◌≤◌, length, drop};
ghost use Rattle.writing.specs.Written.{Puts};
ghost use Rattle.forms.specs.Forms.{three_numbers, text_turned_away};

// A form of three numbers: the first behind the opening, then one of two with nothing before it.
fn put_three(out: &mut [u8], at: usize, opening: &[u8], k: usize, m: usize, n: usize) -> usize
    requires { at + length (three_numbers opening.now k m n) ≤ length out.old }
    ensures { Puts out.old out.new at result (three_numbers opening.now k m n) }
{
    let first = writing::put(out, at, opening);
    let second = writing::put_and(out, first, k, b" ");
    writing::put_two(out, second, b"", m, n)
}

// Writes the form `(turned-away r l t)` at the front, and gives its length.
pub fn write_turned_away(number: u8, line: usize, text: u8, out: &mut [u8]) -> usize
    requires { 64 ≤ length out.old }
    ensures value { result ≡ length (text_turned_away number line text) }
    ensures out_after { out.new ≡ text_turned_away number line text ++ drop result out.old }
{
    put_three(
        out,
        0,
        b"(turned-away ",
        number as usize,
        line,
        text as usize,
    )
}

// Writes fixed bytes, as `(equal)` with its line end, at the front, and gives their number.
pub fn write_word(bytes: &[u8], out: &mut [u8]) -> usize
    requires { length bytes.now ≤ length out.old }
    ensures value { result ≡ length bytes.now }
    ensures out_after { out.new ≡ bytes.now ++ drop result out.old }
{
    writing::put(out, 0, bytes)
}
