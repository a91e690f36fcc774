// The writer: a list of gate codes as a circuit text, and the two forms that the programs write beside it. No `Display`: each part is put at a place
// of the lent area, and gives the place behind it, which is what the contracts (`Puts`) say.
#![tactic(auto)]

ghost use Rattle.std.specs.Prelude.{◌≡◌, ◌∷◌, [], ◌++◌, ◌+◌, ◌≤◌, ◌<◌, length, take, drop};
ghost use Rattle.gates.specs.Code.{gates, AllCodes};
ghost use Rattle.text.specs.Text.{gate, word, render, Proper, circuit_text};
ghost use Rattle.writing.specs.Written.{Puts, gate_lines};
ghost use Rattle.writing.specs.Decimal.{decimal, one_number, two_numbers, turned_away, quote};

use gates::Gate;
use text::Head;

// Writes bytes at a place, and gives the place behind them, as each `put` below does.
pub fn put(out: &mut [u8], at: usize, bytes: &[u8]) -> usize
    requires { at + length bytes.now ≤ length out.old }
    ensures { Puts out.old out.new at result bytes.now }
{
    let next = at + bytes.len();
    out[at..next].copy_from_slice(bytes);
    next
}

fn put_digit(out: &mut [u8], at: usize, d: usize) -> usize
    requires { (d < 10) × (at < length out.old) }
    ensures { Puts out.old out.new at result ((48 + d) ∷ []) }
{
    out[at] = 48 + d as u8;
    at + 1
}

// A number in decimal.
fn put_number(out: &mut [u8], at: usize, n: usize) -> usize
    requires { at + length (decimal n) ≤ length out.old }
    ensures { Puts out.old out.new at result (decimal n) }
{
    if n < 10 {
        return put_digit(out, at, n);
    }
    let next = put_number(out, at, n / 10);
    put_digit(out, next, n % 10)
}

// A number, and the bytes behind it.
pub fn put_and(out: &mut [u8], at: usize, n: usize, behind: &[u8]) -> usize
    requires { at + (length (decimal n) + length behind.now) ≤ length out.old }
    ensures { Puts out.old out.new at result (decimal n ++ behind.now) }
{
    let next = put_number(out, at, n);
    put(out, next, behind)
}

// A form of one number.
fn put_one(out: &mut [u8], at: usize, opening: &[u8], n: usize) -> usize
    requires { at + length (one_number opening.now n) ≤ length out.old }
    ensures { Puts out.old out.new at result (one_number opening.now n) }
{
    let next = put(out, at, opening);
    put_and(out, next, n, b")\n")
}

// A form of two numbers.
pub fn put_two(out: &mut [u8], at: usize, opening: &[u8], m: usize, n: usize) -> usize
    requires { at + length (two_numbers opening.now m n) ≤ length out.old }
    ensures { Puts out.old out.new at result (two_numbers opening.now m n) }
{
    let first = put(out, at, opening);
    let second = put_and(out, first, m, b" ");
    put_and(out, second, n, b")\n")
}

// A gate with a power, a control and a target, in this order.
#[tactic(auto, using(crate::proofs::Lines::word_v, crate::proofs::Lines::word_cn, crate::proofs::Lines::word_vp))]
fn put_powered(out: &mut [u8], at: usize, p: u8, c: usize, t: usize) -> usize
    requires le_p { (1 ≤ p) × (p ≤ 3) }
    requires t_in_bounds { at + length (two_numbers (word p) c t) ≤ length out.old }
    ensures { Puts out.old out.new at result (two_numbers (word p) c t) }
{
    // Each word in a case of its own: copies whose length is known are faster than one of a word by its power.
    match p {
        1 => put_two(out, at, &text::V, c, t),
        2 => put_two(out, at, &text::CN, c, t),
        _ => put_two(out, at, &text::VP, c, t),
    }
}

// A gate's line.
fn put_gate(out: &mut [u8], at: usize, g: Gate) -> usize
    requires proper { Proper (gate g) }
    requires g_in_bounds { at + length (render (gate g)) ≤ length out.old }
    ensures { Puts out.old out.new at result (render (gate g)) }
{
    match g {
        Gate::Not(t) => put_one(out, at, &text::NOT, t as usize),
        Gate::Powered(p, c, t) => put_powered(out, at, p, c as usize, t as usize),
    }
}

// The lines of a list of codes.
fn put_gates(out: &mut [u8], at: usize, codes: &[u16]) -> usize
    requires all_codes { AllCodes 32 codes.now }
    requires codes_in_bounds { at + length (gate_lines codes.now) ≤ length out.old }
    ensures { Puts out.old out.new at result (gate_lines codes.now) }
{
    let mut next = at;
    for &code in codes {
        next = put_gate(out, next, gates::decode(code));
    }
    next
}

// Writes a list of codes as a circuit text at the front of the answer area, and gives the text's length.
pub fn write_circuit(head: Head, codes: &[u16], answer: &mut [u8]) -> usize
    requires lines_bound { (head.lines < 100) × AllCodes 32 codes.now }
    requires codes_in_bounds { length (circuit_text head.lines (gates codes.now)) ≤ length answer.old }
    ensures value { result ≡ length (circuit_text head.lines (gates codes.now)) }
    ensures answer_after { answer.new ≡ circuit_text head.lines (gates codes.now) ++ drop result answer.old }
{
    let next = put_one(answer, 0, &text::LINES, head.lines as usize);
    put_gates(answer, next, codes)
}

// The length of a number of one or two digits.
fn number_length(n: u8) -> usize
    requires { n < 100 }
    ensures { (result ≡ length (decimal n)) × (result ≤ 2) }
{
    if 9 < n {
        return 2;
    }
    1
}

#[tactic(auto, using(crate::proofs::Lines::word_v, crate::proofs::Lines::word_cn, crate::proofs::Lines::word_vp))]
fn word_length(p: u8) -> usize
    requires { (1 ≤ p) × (p ≤ 3) }
    ensures { (result ≡ length (word p)) × (result ≤ 4) }
{
    match p {
        1 => text::V.len(),
        2 => text::CN.len(),
        _ => text::VP.len(),
    }
}

// The length of a gate's line.
fn gate_length(g: Gate) -> usize
    requires { Proper (gate g) }
    ensures { (result ≡ length (render (gate g))) × (result ≤ 16) }
{
    match g {
        Gate::Not(t) => text::NOT.len() + number_length(t) + 2,
        Gate::Powered(p, c, t) => word_length(p) + number_length(c) + 1 + number_length(t) + 2,
    }
}

// The length of the lines of a list of codes.
fn gates_length(codes: &[u16]) -> usize
    requires { (length codes.now ≤ 4096) × AllCodes 32 codes.now }
    ensures { (result ≡ length (gate_lines codes.now)) × (result ≤ 65536) }
{
    let mut total = 0;
    for &code in codes {
        total += gate_length(gates::decode(code));
    }
    total
}

// The length of the circuit text of a list of codes.
pub fn measure(head: Head, codes: &[u16]) -> usize
    requires { (head.lines < 100) × (length codes.now ≤ 4096) × AllCodes 32 codes.now }
    ensures { result ≡ length (circuit_text head.lines (gates codes.now)) }
{
    text::LINES.len() + number_length(head.lines) + 2 + gates_length(codes)
}

// Writes the form `(turned-away r l)` at the front, and gives its length.
pub fn write_turned_away(number: u8, line: usize, out: &mut [u8]) -> usize
    requires { 64 ≤ length out.old }
    ensures value { result ≡ length (turned_away number line) }
    ensures out_after { out.new ≡ turned_away number line ++ drop result out.old }
{
    put_two(out, 0, b"(turned-away ", number as usize, line)
}

// Writes the form `(quote c)` at the front, and gives its length.
pub fn write_quote(count: usize, out: &mut [u8]) -> usize
    requires { 64 ≤ length out.old }
    ensures value { result ≡ length (quote count) }
    ensures out_after { out.new ≡ quote count ++ drop result out.old }
{
    put_one(out, 0, b"(quote ", count)
}
