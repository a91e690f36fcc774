// Checks the slip of one file, the steps that lead from the circuit text of another to that of a third.
#![tactic(auto)]

ghost use Rattle.slip.specs.Output.{Prints};

use console::{BUFFER_BYTES, FORM_BYTES, RECORDS, Task};
use files::Unread;

// The texts of two circuits, and the slip that is to lead from the first to the second.
#[derive(Clone, Copy)]
struct Texts<'a> {
    first: &'a [u8],
    slip: &'a [u8],
    second: &'a [u8],
}

impl Task<FORM_BYTES> for Texts<'_> {
    ghost prints = { λ t. Prints t.first.now t.slip.now t.second.now };

    // The job has gate lists of so many records; the program itself needs none.
    fn answer(&self, out: &mut [u8; FORM_BYTES]) -> usize {
        let outcome = slips::slip_codes(
            self.first,
            RECORDS,
            self.slip,
            self.second,
            RECORDS,
        ).outcome;
        // The C interface has refusals as numbers that are not 0, and so has an outcome.
        if outcome.number != 0 {
            return forms::write_turned_away(outcome.number, outcome.line, outcome.text, out);
        }
        forms::write_word(b"(accepted)\n", out)
    }
}

fn main(rt: HostRuntime) {
    let mut first = [0u8; BUFFER_BYTES];
    let mut slip = [0u8; BUFFER_BYTES];
    let mut second = [0u8; BUFFER_BYTES];
    match files::read_three(&rt, &mut first, &mut slip, &mut second) {
        Ok((m, k, n)) => {
            let texts = Texts {
                first: &first[..m],
                slip: &slip[..k],
                second: &second[..n],
            };
            console::write_answer(&rt, &texts)
        }
        Err(Unread::Unreadable) => {}
        Err(Unread::Misused) => files::tell(&rt, b"usage: slip CIRCUIT SLIP SECOND\n"),
    }
}
