// Compares the circuit texts of two files: are they one circuit, and which comes first if not.
#![tactic(auto)]

ghost use Rattle.std.specs.Prelude.{◌≡◌};
ghost use Rattle.std.specs.declared.cmp.Ordering.{Ordering};
ghost use Rattle.ordering.specs.Comparing.{count_of};
ghost use Rattle.console.specs.Output.{Fronts};
ghost use Rattle.compare.specs.Output.{shown, Prints};

use console::{BUFFER_BYTES, FORM_BYTES, RECORDS, Task};
use files::Unread;

// Writes the word of the comparison that has this count at the front, and gives its length. An outcome has a comparison as its count: the contract
// `Compare` and the C interface hold it.
fn write_comparison(count: usize, out: &mut [u8; FORM_BYTES]) -> usize
    ensures { (k : Ordering) → count ≡ count_of k → Fronts out.old result out.new (shown k) }
{
    match count {
        0 => forms::write_word(b"(less)\n", out),
        1 => forms::write_word(b"(equal)\n", out),
        _ => forms::write_word(b"(greater)\n", out),
    }
}

// The texts of two circuits, to be compared.
#[derive(Clone, Copy)]
struct Texts<'a> {
    first: &'a [u8],
    second: &'a [u8],
}

impl Task<FORM_BYTES> for Texts<'_> {
    ghost prints = { λ t. Prints t.first.now t.second.now };

    // The job has gate lists of so many records; the program itself needs none.
    fn answer(&self, out: &mut [u8; FORM_BYTES]) -> usize {
        let outcome = comparison::compare_codes(self.first, RECORDS, self.second, RECORDS).outcome;
        // The C interface has refusals as numbers that are not 0, and so has an outcome.
        if outcome.number != 0 {
            return forms::write_turned_away(outcome.number, outcome.line, outcome.text, out);
        }
        write_comparison(outcome.count, out)
    }
}

fn main(rt: HostRuntime) {
    let mut first = [0u8; BUFFER_BYTES];
    let mut second = [0u8; BUFFER_BYTES];
    match files::read_two(&rt, &mut first, &mut second) {
        Ok((m, n)) => {
            let texts = Texts {
                first: &first[..m],
                second: &second[..n],
            };
            console::write_answer(&rt, &texts)
        }
        Err(Unread::Unreadable) => {}
        Err(Unread::Misused) => files::tell(&rt, b"usage: compare FIRST SECOND\n"),
    }
}
