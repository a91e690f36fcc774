// What jobs hand over to the thin functions above them: a refusal, or success with the gates of so many codes.
#![tactic(auto)]

ghost use Rattle.std.specs.Prelude.{◌≡◌, cond, leb};
ghost use Rattle.outcomes.specs.Outcomes.{refusal_filling, success_filling, refused, refused_two, succeeded_two, succeeded, with_text};

use records::{Done, DoneTwo, Filling, GATES, Outcome, TextOutcome};
use text::{Refusal, Refused, TextRefused};

// How many records a refusal writes: none for 1 and 2 (nor for 0, which is no refusal), else all. It is read off the number, of which the jobs' contracts say it (`limit_of`).
fn limit(number: u8, room: usize) -> usize
    ensures { result ≡ cond (leb number 2) 0 room }
{
    if number <= 2 {
        return 0;
    }
    room
}

// What a refusal leaves in a gate list of `room` records: no gates.
#[tactic(auto, unfolding(crate::specs::Outcomes::refusal_filling))]
fn refuse_list(r: Refusal, room: usize, codes: [u16; GATES]) -> Filling
    ensures { result ≡ refusal_filling r room codes }
{
    Filling {
        codes,
        gates: 0,
        limit: limit(u8::from(r), room),
    }
}

// What success leaves in it: the gates of the first m codes.
#[tactic(auto, unfolding(crate::specs::Outcomes::success_filling))]
fn succeed_list(m: usize, room: usize, codes: [u16; GATES]) -> Filling
    ensures { result ≡ success_filling m room codes }
{
    Filling {
        codes,
        gates: m,
        limit: room,
    }
}

// A refusal, with its line.
#[tactic(auto, unfolding(crate::specs::Outcomes::refused))]
pub fn refuse(r: Refused, room: usize, codes: [u16; GATES]) -> Done<Outcome>
    ensures { result ≡ refused r.refusal r.line room codes }
{
    let filling = refuse_list(r.refusal, room, codes);
    let outcome = Outcome {
        number: u8::from(r.refusal),
        line: r.line,
        gates: 0,
        bytes: 0,
    };
    Done { filling, outcome }
}

// What a job over one text hands over, as one over several texts does: with a text number, and the bytes for the count.
#[tactic(auto, unfolding(crate::specs::Outcomes::with_text))]
pub fn with_text(d: Done<Outcome>, text: u8) -> Done<TextOutcome>
    ensures { result ≡ with_text text d }
{
    let outcome = TextOutcome {
        number: d.outcome.number,
        line: d.outcome.line,
        text,
        count: d.outcome.bytes,
    };
    Done {
        filling: d.filling,
        outcome,
    }
}

// A refusal of a job over two gate lists.
#[tactic(auto, unfolding(crate::specs::Outcomes::refused_two))]
pub fn refuse_two(
    r: TextRefused,
    room: usize,
    room2: usize,
    codes: [u16; GATES],
    codes2: [u16; GATES],
) -> DoneTwo
    ensures { result ≡ refused_two r.refusal r.text r.line room room2 codes codes2 }
{
    let first = refuse_list(r.refusal, room, codes);
    let second = refuse_list(r.refusal, room2, codes2);
    let outcome = TextOutcome {
        number: u8::from(r.refusal),
        line: r.line,
        text: r.text,
        count: 0,
    };
    DoneTwo {
        first,
        second,
        outcome,
    }
}

// Its success, with the first m codes, the first n, and a count.
#[tactic(auto, unfolding(crate::specs::Outcomes::succeeded_two))]
pub fn succeed_two(
    m: usize,
    n: usize,
    count: usize,
    room: usize,
    room2: usize,
    codes: [u16; GATES],
    codes2: [u16; GATES],
) -> DoneTwo
    ensures { result ≡ succeeded_two m n count room room2 codes codes2 }
{
    let first = succeed_list(m, room, codes);
    let second = succeed_list(n, room2, codes2);
    let outcome = TextOutcome {
        number: 0,
        line: 0,
        text: 0,
        count,
    };
    DoneTwo {
        first,
        second,
        outcome,
    }
}

// Success, with the first so many codes and so many bytes written.
#[tactic(auto, unfolding(crate::specs::Outcomes::succeeded))]
pub fn succeed(gates: usize, bytes: usize, room: usize, codes: [u16; GATES]) -> Done<Outcome>
    ensures { result ≡ succeeded gates bytes room codes }
{
    let filling = succeed_list(gates, room, codes);
    let outcome = Outcome {
        number: 0,
        line: 0,
        gates,
        bytes,
    };
    Done { filling, outcome }
}
