// Joins the circuit texts of two files, the first before the second.
#![tactic(auto)]

ghost use Rattle.join.specs.Output.{Prints};

use console::{ANSWER_BYTES, BUFFER_BYTES, RECORDS, Task};
use files::Unread;

// The texts of two circuits, to be joined.
#[derive(Clone, Copy)]
struct Texts<'a> {
    first: &'a [u8],
    second: &'a [u8],
}

impl Task<ANSWER_BYTES> for Texts<'_> {
    ghost prints = { λ t. Prints t.first.now t.second.now };

    // The job has a gate list of so many records; the program itself needs none.
    fn answer(&self, out: &mut [u8; ANSWER_BYTES]) -> usize {
        let outcome = joins::join_codes(self.first, RECORDS, self.second, out).outcome;
        // The C interface has refusals as numbers that are not 0, and so has an outcome.
        if outcome.number != 0 {
            return forms::write_turned_away(outcome.number, outcome.line, outcome.text, out);
        }
        outcome.count
    }
}

fn main(rt: HostRuntime) {
    let mut first = [0u8; BUFFER_BYTES];
    let mut second = [0u8; BUFFER_BYTES];
    match files::read_two(&rt, &mut first, &mut second) {
        Ok((m, n)) => {
            let texts = Texts {
                first: &first[..m],
                second: &second[..n],
            };
            console::write_answer(&rt, &texts)
        }
        Err(Unread::Unreadable) => {}
        Err(Unread::Misused) => files::tell(&rt, b"usage: join FIRST SECOND\n"),
    }
}
