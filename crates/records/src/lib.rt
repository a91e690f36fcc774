// The gate records that a job is lent: what a job's covered part hands over, and how it is written into them. `store` alone
// writes into them.
#![tactic(auto)]

ghost use Rattle.std.specs.Prelude.{◌≡◌, ◌≤◌, ℕ, length, get_or};
ghost use Rattle.gates.specs.Code.{gate, AllCodes, Code};
ghost use Rattle.records.specs.Records.{not_0, padded, filled_by, Fits};

use gates::Gate;

// How many gates a text may have, and a list has room for.
pub const GATES: usize = 4096;

// The code of the gate `not 0`.
const NOT_0: u16 = 2;

// The number and the line that a job over one text returns, the gates of its reduced list, and the bytes that it wrote.
// A refusal stays a number here: the contract `Says` in jobs/specs and the C interface hold it.
#[derive(Clone, Copy)]
pub struct Outcome {
    pub number: u8,
    pub line: usize,
    pub gates: usize,
    pub bytes: usize,
}

// Those of a job over several texts, and the number of the text whose rule or line refuses.
#[derive(Clone, Copy)]
pub struct TextOutcome {
    pub number: u8,
    pub line: usize,
    pub text: u8,
    pub count: usize,
}

// What is written into a gate list: the codes of the gates for its front, how many codes these are, and how many records are written. An array with
// a count, since nothing is allocated.
#[derive(Clone, Copy)]
pub struct Filling {
    pub codes: [u16; GATES],
    pub gates: usize,
    pub limit: usize,
}

// What the covered part of a job over one gate list hands over, with the outcome of its kind: an `Outcome` or a `TextOutcome`.
#[derive(Clone, Copy)]
pub struct Done<O> {
    pub filling: Filling,
    pub outcome: O,
}

// What that of a job over several texts and two gate lists hands over. Names tell the two apart; an array of both would be no plainer.
#[derive(Clone, Copy)]
pub struct DoneTwo {
    pub first: Filling,
    pub second: Filling,
    pub outcome: TextOutcome,
}

// What stands in a gate list for a gate, which is given by its code: the gate itself, or the code.
pub trait Record: Copy {
    ghost of: { ℕ → Self };

    fn of(code: u16) -> Self
        requires { Code 32 code }
        ensures { result ≡ of code };
}

impl Record for Gate {
    ghost of = { gate };

    fn of(code: u16) -> Gate {
        gates::decode(code)
    }
}

impl Record for u16 {
    ghost of = { λ k. k };

    fn of(code: u16) -> u16 {
        code
    }
}

// Code i, and behind the last that of `not 0`.
fn code_at(codes: &[u16], i: usize) -> u16
    ensures { result ≡ get_or codes.now i not_0 }
{
    codes.get(i).copied().unwrap_or(NOT_0)
}

// Writes every record of a list: the codes', then those of `not 0`.
pub fn store<R: Record>(list: &mut [R], codes: &[u16])
    requires { (length codes.now ≤ length list.old) × AllCodes 32 codes.now }
    ensures { list.new ≡ padded R.of codes.now (length list.old) }
{
    for (i, record) in list.iter_mut().enumerate() {
        *record = R::of(code_at(codes, i));
    }
}

// Writes into a gate list what a job hands over for it.
pub fn fill(list: &mut [Gate], f: Filling)
    requires { Fits f (length list.old) }
    ensures { list.new ≡ filled_by f list.old }
{
    store(&mut list[..f.limit], &f.codes[..f.gates]);
}
