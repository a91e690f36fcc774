// The programs over one text: the text read from a file or from standard input, a job done on it, and the bytes of its answer written.
#![tactic(auto)]

ghost use Rattle.std.specs.Prelude.{ℕ, ◌≡◌, ◌^◌, ◌<◌, ◌≤◌, List, [], length};
ghost use Rattle.jobs.specs.Jobs.{mapping};
ghost use Rattle.jobs.specs.Handing.{Own};
ghost use Rattle.console.specs.Output.{output_of, Prints, Answers, Does, Succeeds};

use files::Unread;
use records::Outcome;
use std::io;
use std::rt::{Env, Files};

// How many bytes a text may have.
pub const TEXT_BYTES: usize = 60000;

// How many bytes a text is read into: one more than it may have, so a longer one is seen to be too long. The programs read into arrays and allocate
// nothing.
pub const BUFFER_BYTES: usize = TEXT_BYTES + 1;

// How many records a gate list has: as many as a text may have gates.
pub const RECORDS: usize = 4096;

// How many bytes the longest answer has: 11 for line 1 and for each gate.
pub const ANSWER_BYTES: usize = 11 + 11 * RECORDS;

// How many bytes the area for a refusal or a word has: as many as their writers ask for.
pub const FORM_BYTES: usize = 64;

// ---- what every program does

// The texts of a program, which leaves what it writes for them at the front of an area of N bytes.
pub trait Task<const N: usize> {
    // The bytes that the program may write for the texts.
    ghost prints: { Self → List ℕ → Type 0 };

    // Leaves such bytes at the front of the area, and gives their number.
    fn answer(&self, out: &mut [u8; N]) -> usize
        ensures bytes { Answers (prints self.now) out.old result out.new }
        ensures area { length out.new ≡ N };
}

// Writes what a program is to write for its texts, which the task names.
fn print<const N: usize, T: Task<N>, R: Print + Eprint>(rt: &R, task: &T, bytes: &[u8])
    requires { T.prints task.now bytes.now }
{
    files::write_out(rt, bytes);
}

// Writes the answer of a program for its texts.
pub fn write_answer<const N: usize, T: Task<N>, R: Print + Eprint>(rt: &R, task: &T)
    requires { N < 2 ^ 63 }
{
    let mut out = [0u8; N];
    let n = task.answer(&mut out);
    print(rt, task, &out[..n]);
}

// ---- the programs over one text

// The programs: map and quote stand over one job. What the programs write (`Prints`) and its theorems are stated over these values.
#[derive(Clone, Copy)]
pub enum Program {
    Map,
    Reduce,
    Quote,
}

// Maps a text with no answer area, and a gate list of its own.
fn quote(text: &[u8]) -> Outcome
    ensures { Own mapping text.now [] result [] }
{
    jobs::map_text(text, &mut [])
}

// Does the job of a program on a text, with a gate list of its own. Map and reduce leave their text at the front of the area.
fn outcome_of(program: Program, text: &[u8], out: &mut [u8]) -> Outcome
    ensures { Does program text.now out.old result out.new }
{
    match program {
        Program::Map => jobs::map_text(text, out),
        Program::Reduce => jobs::reduce_text(text, out),
        Program::Quote => quote(text),
    }
}

// Writes the answer by its counts, and gives its length: the text of map and reduce, of so many bytes, stands there already.
fn write_success(program: Program, gates: usize, bytes: usize, out: &mut [u8]) -> usize
    requires { 64 ≤ length out.old }
    ensures { Succeeds (output_of program) gates bytes out.old result out.new }
{
    match program {
        Program::Map => bytes,
        Program::Reduce => bytes,
        Program::Quote => writing::write_quote(gates, out),
    }
}

// Leaves at the front of the area the bytes that a program writes for a text, and gives their number.
pub fn answer(program: Program, text: &[u8], out: &mut [u8; ANSWER_BYTES]) -> usize
    ensures { Answers (Prints program text.now) out.old result out.new }
{
    let outcome = outcome_of(program, text, out);
    // The C interface has refusals as numbers that are not 0, and so has an outcome.
    if outcome.number != 0 {
        return writing::write_turned_away(outcome.number, outcome.line, out);
    }
    write_success(program, outcome.gates, outcome.bytes, out)
}

// A text, and the program that answers it.
#[derive(Clone, Copy)]
struct Asked<'a> {
    program: Program,
    text: &'a [u8],
}

impl Task<ANSWER_BYTES> for Asked<'_> {
    ghost prints = { λ t. Prints t.program t.text.now };

    fn answer(&self, out: &mut [u8; ANSWER_BYTES]) -> usize {
        answer(self.program, self.text, out)
    }
}

// Says how a program over one text is called.
fn tell_usage(rt: &impl Eprint, program: Program) {
    match program {
        Program::Map => files::tell(rt, b"usage: map [FILE]\n"),
        Program::Reduce => files::tell(rt, b"usage: reduce [FILE]\n"),
        Program::Quote => files::tell(rt, b"usage: quote [FILE]\n"),
    }
}

// A program over one text: does its job on it.
pub fn run<R: Env + Files + io::Input + Print + Eprint>(rt: &R, program: Program) {
    let mut buffer = [0u8; BUFFER_BYTES];
    match files::read_text(rt, &mut buffer) {
        Ok(n) => write_answer(
            rt,
            &Asked {
                program,
                text: &buffer[..n],
            },
        ),
        Err(Unread::Unreadable) => {}
        Err(Unread::Misused) => tell_usage(rt, program),
    }
}
