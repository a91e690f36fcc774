// The papers' examples that are run and not proved. Each line of the output names a job and an example, gives the refusal number and the
// line that the papers say and those that came back, and says whether they agree.
#![tactic(auto)]

ghost use Rattle.std.specs.Prelude.{◌≡◌, ◌≤◌, length, take};

use console::ANSWER_BYTES;
use records::Outcome;
use std::{cmp, io};

// An example of the papers, with the refusal number and the line that they say, as the outcome of a job has them.
#[derive(Clone, Copy)]
struct Example<'a> {
    name: &'a str,
    number: u8,
    line: usize,
}

impl Example<'_> {
    // Writes the line of one job, by what came back from it.
    fn tell(&self, rt: &impl Print, job: &str, given: Outcome) -> io::Result<()> {
        let verdict = if given.number == self.number && given.line == self.line {
            "ok"
        } else {
            "WRONG"
        };
        println!(rt;
            "{job}, {}: expected {} {}, given {} {}: {verdict}",
            self.name, self.number, self.line, given.number, given.line
        )
    }

    // Tries the job that takes a cascade, with no answer area and with one.
    fn try_cascade(&self, rt: &impl Print, text: &[u8]) -> io::Result<()> {
        let quoted = jobs::map_text(text, &mut []);
        self.tell(rt, "quote only", quoted)?;
        let mut answer = [0u8; ANSWER_BYTES];
        let given = jobs::map_text(text, &mut answer);
        self.tell(rt, "map", given)
    }

    // Tries the job that takes a circuit.
    fn try_circuit(&self, rt: &impl Print, text: &[u8]) -> io::Result<()> {
        let mut answer = [0u8; ANSWER_BYTES];
        let given = jobs::reduce_text(text, &mut answer);
        self.tell(rt, "reduce", given)
    }

    // Tries both jobs.
    fn try_jobs(&self, rt: &impl Print, text: &[u8]) -> io::Result<()> {
        self.try_cascade(rt, text)?;
        self.try_circuit(rt, text)
    }

    // Tries a text that begins so, with this many gates of 15 controls behind.
    fn try_gates(&self, rt: &impl Print, front: &[u8], count: usize) -> io::Result<()> {
        let mut text = [0u8; 2048];
        let n = add_gates(&mut text, front, count);
        self.try_cascade(rt, &text[..n])
    }
}

// Adds bytes behind the first `at` of the text, as far as there is room, and gives the place behind them.
fn add(text: &mut [u8], at: usize, bytes: &[u8]) -> usize
    requires { at ≤ length text.old }
    ensures { result ≤ length text.new }
{
    let n = cmp::min(bytes.len(), text.len() - at);
    text[at..at + n].copy_from_slice(&bytes[..n]);
    at + n
}

// A text that begins so and goes on with this many gates of 15 controls, and its length.
fn add_gates(text: &mut [u8], front: &[u8], count: usize) -> usize
    ensures within { result ≤ length text.new }
    ensures prefix { result ≡ length (take result text.new) }
{
    let mut end = add(text, 0, front);
    for _ in 0..count {
        end = add(
            text,
            end,
            b"(mct (0 1 2 3 4 5 6 7 8 9 10 11 12 13 14) 15)\n",
        );
    }
    end
}

// A text of 60,001 bytes.
fn try_overlong(rt: &impl Print) -> io::Result<()> {
    let mut text = [0u8; console::TEXT_BYTES + 1];
    add(&mut text, 0, b"(lines 32)\n");
    let example = Example {
        name: "60,001 bytes",
        number: 1,
        line: 0,
    };
    example.try_jobs(rt, &text)
}

// Gates of 15 controls on 17 lines: eleven of them and twelve.
fn try_fifteen(rt: &impl Print) -> io::Result<()> {
    let eleven = Example {
        name: "eleven gates of 15 controls on 17 lines",
        number: 0,
        line: 0,
    };
    eleven.try_gates(rt, b"(lines 17)\n", 11)?;
    let twelve = Example {
        name: "twelve gates of 15 controls on 17 lines",
        number: 9,
        line: 13,
    };
    twelve.try_gates(rt, b"(lines 17)\n", 12)
}

// Eleven gates of 15 controls on 17 lines, the first with two negated controls and with three.
fn try_negated(rt: &impl Print) -> io::Result<()> {
    let two = Example {
        name: "eleven gates of 15 controls on 17 lines, two controls negated",
        number: 0,
        line: 0,
    };
    two.try_gates(
        rt,
        b"(lines 17)\n(mct (-0 1 2 3 4 5 6 7 8 9 10 11 12 13 -14) 15)\n",
        10,
    )?;
    let three = Example {
        name: "eleven gates of 15 controls on 17 lines, three controls negated",
        number: 9,
        line: 12,
    };
    three.try_gates(
        rt,
        b"(lines 17)\n(mct (-0 1 2 3 4 -5 6 7 8 9 10 11 12 13 -14) 15)\n",
        10,
    )
}

// A gate of 16 controls, too wide on any number of lines. On 17 lines it has no spare line either, and this is tried first.
fn try_sixteen(rt: &impl Print) -> io::Result<()> {
    let on_17 = Example {
        name: "16 rising controls on 17 lines",
        number: 8,
        line: 2,
    };
    on_17.try_cascade(
        rt,
        b"(lines 17)\n(mct (0 1 2 3 4 5 6 7 8 9 10 11 12 13 14 15) 16)\n",
    )?;
    let on_18 = Example {
        name: "16 rising controls on 18 lines",
        number: 7,
        line: 2,
    };
    on_18.try_cascade(
        rt,
        b"(lines 18)\n(mct (0 1 2 3 4 5 6 7 8 9 10 11 12 13 14 15) 16)\n",
    )
}

// The most lines that a header may give, and one more.
fn try_headers(rt: &impl Print) -> io::Result<()> {
    let most = Example {
        name: "header 32",
        number: 0,
        line: 0,
    };
    most.try_jobs(rt, b"(lines 32)\n")?;
    let more = Example {
        name: "header 33",
        number: 4,
        line: 1,
    };
    more.try_jobs(rt, b"(lines 33)\n")
}

// A cascade and a circuit whose last line is not ended.
fn try_unended(rt: &impl Print) -> io::Result<()> {
    let unended = Example {
        name: "last line without byte 10",
        number: 3,
        line: 2,
    };
    unended.try_cascade(rt, b"(lines 3)\n(mct (0 1) 2)")?;
    unended.try_circuit(rt, b"(lines 3)\n(cn 0 1)")
}

fn main(rt: HostRuntime) -> io::Result<()> {
    try_fifteen(&rt)?;
    try_negated(&rt)?;
    try_sixteen(&rt)?;
    try_headers(&rt)?;
    try_overlong(&rt)?;
    try_unended(&rt)
}
