// How a program reads its texts, from the files that its arguments name or from standard input, and writes.
#![tactic(auto)]

ghost use Rattle.std.specs.Prelude.{◌≡◌, ◌^◌, ◌<◌, ◌≤◌, length, take, slice_range, IfOk};
ghost use Rattle.std.specs.Io.KnownBytes.{Consumes, IsAtEnd};
ghost use Rattle.files.specs.declared.Unread.TheVariants.{Misused};
ghost use Rattle.files.specs.Input.{Within, WithinTwo, WithinThree};

use std::env::FillError;
use std::fmt::InlineText;
use std::io::Read;
use std::rt::{Env, Files};
use std::{fs, io, str};

// How many bytes the name of a file may have.
const NAME_BYTES: usize = 4095;

// Why a program has not its texts: one cannot be read, which was said to standard error, or the program's arguments do not name them.
#[derive(Clone, Copy, Debug, PartialEq, Eq)]
pub enum Unread {
    Unreadable,
    Misused,
}

// An argument that is missing or too long names no file.
impl From<FillError> for Unread {
    ghost from_gives = { λ _ e. e ≡ Misused };

    fn from(_: FillError) -> Unread {
        Unread::Misused
    }
}

// One read, behind the n bytes that the buffer holds, and how many it then holds. The programs set no handler for signals, so nothing interrupts it.
#[tactic(auto, using(crate::proofs::Read::read_part))]
fn read_more<F: Read>(file: &mut F, buffer: &mut [u8], n: usize) -> io::Result<usize>
    requires { n ≤ length buffer.old }
    ensures within { IfOk result (λ m. (n ≤ m) × (m ≤ length buffer.old)) }
    ensures kept { take n buffer.new ≡ take n buffer.old }
    ensures bytes { IfOk result (λ m. Consumes (F.remaining file.old) (F.remaining file.new) (slice_range buffer.new n m)) }
    ensures end { IfOk result (λ m. m ≡ n → n < length buffer.old → IsAtEnd (F.remaining file.new)) }
{
    let got = file.read(&mut buffer[n..])?;
    Ok(n + got)
}

// Reads until the buffer is full or the input ends. Each turn that goes on takes a byte at least.
fn read_input<F: Read>(file: &mut F, buffer: &mut [u8]) -> io::Result<usize>
    ensures within { IfOk result (λ n. n ≤ length buffer.new) }
    ensures bytes { IfOk result (λ n. Consumes (F.remaining file.old) (F.remaining file.new) (take n buffer.new)) }
    ensures end { IfOk result (λ n. n < length buffer.new → IsAtEnd (F.remaining file.new)) }
{
    let size = buffer.len();
    let mut n = 0;
    while n < size {
        let m = read_more(file, buffer, n)?;
        if m == n {
            return Ok(n);
        }
        n = m;
    }
    Ok(n)
}

// Writes a line to standard error. One that is not text in UTF-8 is written with escapes.
pub fn tell(rt: &impl Eprint, line: &[u8]) {
    let _ = match str::from_utf8(line) {
        Ok(text) => rt.eprint(text),
        Err(_) => rt.eprint(line.escape_ascii()),
    };
}

// Reads standard input, or says that it cannot.
fn read_standard<R: io::Input + Eprint>(rt: &R, buffer: &mut [u8]) -> Result<usize, Unread>
    ensures { Within 0 (length buffer.new) result }
{
    read_input(&mut rt.reader(), buffer).map_err(|_| {
        tell(rt, b"standard input cannot be read\n");
        Unread::Unreadable
    })
}

// The words of an error, without the system's number behind them.
fn without_number(words: &str) -> &str {
    match words.split_once(" (os error ") {
        Some((reason, _)) => reason,
        None => words,
    }
}

// Says why a file cannot be read.
fn tell_why(rt: &impl Eprint, path: &str, error: io::Error) {
    let words = InlineText::<320>::of(error);
    let reason = without_number(words.as_str());
    let _ = eprintln!(rt; "{path}: {reason}");
}

// Opens the file of this name, and reads it.
fn read_path<R: Files>(rt: &R, path: &str, buffer: &mut [u8]) -> io::Result<usize>
    ensures { IfOk result (λ n. n ≤ length buffer.new) }
{
    let mut file = fs::open(rt, path)?;
    read_input(&mut file, buffer)
}

// Reads the file of this name, or says why it cannot.
fn read_file<R: Files + Eprint>(rt: &R, path: &[u8], buffer: &mut [u8]) -> Result<usize, Unread>
    ensures { Within 0 (length buffer.new) result }
{
    let Ok(path) = str::from_utf8(path) else {
        let name = path.escape_ascii();
        let _ = eprintln!(rt; "{name}: not text in UTF-8");
        return Err(Unread::Unreadable);
    };
    read_path(rt, path, buffer).map_err(|error| {
        tell_why(rt, path, error);
        Unread::Unreadable
    })
}

// Reads the file that argument i names, and gives how many bytes of it stand at the front of the buffer. An argument that is missing, empty, too
// long or begins with `-` names none.
pub fn read_argument<R: Env + Files + Eprint>(
    rt: &R,
    i: usize,
    buffer: &mut [u8],
) -> Result<usize, Unread>
    ensures { Within 0 (length buffer.new) result }
{
    let mut name = [0u8; NAME_BYTES];
    let n = rt.arg(i, &mut name)?;
    if n == 0 || name[0] == b'-' {
        return Err(Unread::Misused);
    }
    read_file(rt, &name[..n], buffer)
}

// Whether the program has an argument i, however long. Argument 0 is its own name.
fn has_argument(rt: &impl Env, i: usize) -> bool {
    !matches!(rt.arg(i, &mut []), Err(FillError::NotPresent))
}

// Refuses a program that has fewer arguments than `count`, or more.
fn need_arguments(rt: &impl Env, count: usize) -> Result<(), Unread>
    requires { count < 2 ^ 16 }
{
    if !has_argument(rt, count) || has_argument(rt, count + 1) {
        return Err(Unread::Misused);
    }
    Ok(())
}

// Reads the text of a program over one text: the file that its argument names, or standard input where it has none.
pub fn read_text<R: Env + Files + io::Input + Eprint>(
    rt: &R,
    buffer: &mut [u8],
) -> Result<usize, Unread>
    ensures { Within 0 (length buffer.new) result }
{
    if has_argument(rt, 2) {
        return Err(Unread::Misused);
    }
    if has_argument(rt, 1) {
        return read_argument(rt, 1, buffer);
    }
    read_standard(rt, buffer)
}

// Two texts and three have readers of their own: the borrow checker does not cover an array of slices whose length is a const parameter.

// Reads the texts of a program over two files: those that its two arguments name. Nothing is read of the second where the first cannot be read.
pub fn read_two<R: Env + Files + Eprint>(
    rt: &R,
    first: &mut [u8],
    second: &mut [u8],
) -> Result<(usize, usize), Unread>
    ensures { WithinTwo (length first.new) (length second.new) result }
{
    need_arguments(rt, 2)?;
    let m = read_argument(rt, 1, first)?;
    let n = read_argument(rt, 2, second)?;
    Ok((m, n))
}

// Reads the texts of a program over three files: those that its three arguments name. Nothing is read behind one that cannot be read.
pub fn read_three<R: Env + Files + Eprint>(
    rt: &R,
    first: &mut [u8],
    second: &mut [u8],
    third: &mut [u8],
) -> Result<(usize, usize, usize), Unread>
    ensures { WithinThree (length first.new) (length second.new) (length third.new) result }
{
    need_arguments(rt, 3)?;
    let m = read_argument(rt, 1, first)?;
    let n = read_argument(rt, 2, second)?;
    let k = read_argument(rt, 3, third)?;
    Ok((m, n, k))
}

// Writes to standard output, or says that it cannot.
pub fn write_out(rt: &(impl Print + Eprint), bytes: &[u8]) {
    if rt.write_all(bytes).is_err() {
        tell(rt, b"standard output cannot be written\n");
    }
}
