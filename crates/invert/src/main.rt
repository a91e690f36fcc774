// Inverts a circuit text, of the file named or else on standard input.
#![tactic(auto)]

ghost use Rattle.invert.specs.Output.{Prints};

use console::{ANSWER_BYTES, BUFFER_BYTES, RECORDS, Task};
use files::Unread;

// The text of a circuit, to be inverted.
#[derive(Clone, Copy)]
struct Asked<'a> {
    text: &'a [u8],
}

impl Task<ANSWER_BYTES> for Asked<'_> {
    ghost prints = { λ t. Prints t.text.now };

    // The job has a gate list of so many records; the program itself needs none.
    fn answer(&self, out: &mut [u8; ANSWER_BYTES]) -> usize {
        let outcome = inversion::invert_codes(self.text, RECORDS, out).outcome;
        // The C interface has refusals as numbers that are not 0, and so has an outcome.
        if outcome.number != 0 {
            return writing::write_turned_away(outcome.number, outcome.line, out);
        }
        outcome.bytes
    }
}

fn main(rt: HostRuntime) {
    let mut buffer = [0u8; BUFFER_BYTES];
    match files::read_text(&rt, &mut buffer) {
        Ok(n) => console::write_answer(&rt, &Asked { text: &buffer[..n] }),
        Err(Unread::Unreadable) => {}
        Err(Unread::Misused) => files::tell(&rt, b"usage: invert [FILE]\n"),
    }
}
