// The jobs as C functions, and one that reads a gate record: gates are numbers, and so are the parts of the outcome.
#![tactic(auto)]

ghost use Rattle.std.specs.Prelude.{◌≡◌, List, ℕ, length};
ghost use Rattle.records.specs.Records.{Fits};
ghost use Rattle.storing.specs.Storing.{stored};
ghost use Rattle.jobs.specs.Jobs.{mapping, reducing, writes};
ghost use Rattle.inversion.specs.Invert.{Invert};
ghost use Rattle.joins.specs.Join.{Join};
ghost use Rattle.comparison.specs.Compare.{Compare};
ghost use Rattle.slips.specs.Slip.{Slip};
ghost use Rattle.parts.specs.Parts.{RecordParts};
ghost use Rattle.capi.specs.Exported.{four, TellsOne, Tells, TellsText, TellsTwo};

use records::{Done, DoneTwo, Outcome, TextOutcome};
use text::Kind;

// What a job returns, as the four numbers that C sees.
trait Numbers: Copy {
    ghost numbers: { Self → List ℕ };

    fn numbers(self) -> [u64; 4]
        ensures { result ≡ numbers self };
}

impl Numbers for Outcome {
    ghost numbers = { λ o. four o.number o.line o.gates o.bytes };

    fn numbers(self) -> [u64; 4] {
        [
            self.number as u64,
            self.line as u64,
            self.gates as u64,
            self.bytes as u64,
        ]
    }
}

impl Numbers for TextOutcome {
    ghost numbers = { λ o. four o.number o.line o.text o.count };

    fn numbers(self) -> [u64; 4] {
        [
            self.number as u64,
            self.line as u64,
            self.text as u64,
            self.count as u64,
        ]
    }
}

// Writes what a job over one list hands over into the list and the outcome that the caller lends.
fn hand_over<O: Numbers>(d: Done<O>, list: &mut [u16], outcome: &mut [u64; 4])
    requires { Fits d.filling (length list.old) }
    ensures { (list.new ≡ stored d.filling list.old) × (outcome.new ≡ O.numbers d.outcome) }
{
    storing::store(d.filling, list);
    *outcome = d.outcome.numbers();
}

// The same of a job over two lists.
fn hand_over_two(d: DoneTwo, list: &mut [u16], list2: &mut [u16], outcome: &mut [u64; 4])
    requires { Fits d.first (length list.old) × Fits d.second (length list2.old) }
    ensures { (list.new ≡ stored d.first list.old) × (list2.new ≡ stored d.second list2.old) × (outcome.new ≡ four d.outcome.number d.outcome.line d.outcome.text d.outcome.count) }
{
    storing::store(d.first, list);
    storing::store(d.second, list2);
    *outcome = d.outcome.numbers();
}

// Does the job over a text of this kind.
fn answer_text(kind: Kind, text: &[u8], list: &mut [u16], answer: &mut [u8], outcome: &mut [u64; 4])
    ensures { Tells (writes kind) text.now list.old answer.old outcome.new list.new answer.new }
{
    let d = jobs::text_codes(kind, text, list.len(), answer);
    hand_over(d, list, outcome);
}

// Maps a cascade text to a circuit text. With an empty answer area it quotes the gate count alone.
#[unsafe(no_mangle)]
pub extern "C" fn yilgorza_map(
    text: &[u8],
    list: &mut [u16],
    answer: &mut [u8],
    outcome: &mut [u64; 4],
)
    ensures { Tells mapping text.now list.old answer.old outcome.new list.new answer.new }
{
    answer_text(Kind::Cascade, text, list, answer, outcome);
}

// Reduces a circuit text.
#[unsafe(no_mangle)]
pub extern "C" fn yilgorza_reduce(
    text: &[u8],
    list: &mut [u16],
    answer: &mut [u8],
    outcome: &mut [u64; 4],
)
    ensures { Tells reducing text.now list.old answer.old outcome.new list.new answer.new }
{
    answer_text(Kind::Circuit, text, list, answer, outcome);
}

// Inverts a circuit text.
#[unsafe(no_mangle)]
pub extern "C" fn yilgorza_invert(
    text: &[u8],
    list: &mut [u16],
    answer: &mut [u8],
    outcome: &mut [u64; 4],
)
    ensures { TellsOne (λ k x. Invert (record { text = text.entry.now; list = k; area = answer.old }) x) list.old outcome.new list.new answer.new }
{
    let d = inversion::invert_codes(text, list.len(), answer);
    hand_over(d, list, outcome);
}

// Joins two circuit texts.
#[unsafe(no_mangle)]
pub extern "C" fn yilgorza_join(
    first: &[u8],
    list: &mut [u16],
    second: &[u8],
    answer: &mut [u8],
    outcome: &mut [u64; 4],
)
    ensures { TellsText (λ l x. Join first.now l second.now answer.old x) list.old outcome.new list.new answer.new }
{
    let d = joins::join_codes(first, list.len(), second, answer);
    hand_over(d, list, outcome);
}

// Compares two circuit texts.
#[unsafe(no_mangle)]
pub extern "C" fn yilgorza_compare(
    first: &[u8],
    first_list: &mut [u16],
    second: &[u8],
    second_list: &mut [u16],
    outcome: &mut [u64; 4],
)
    ensures { TellsTwo (λ l m x. Compare first.now l second.now m x) first_list.old second_list.old outcome.new first_list.new second_list.new }
{
    let d = comparison::compare_codes(first, first_list.len(), second, second_list.len());
    hand_over_two(d, first_list, second_list, outcome);
}

// Checks a slip, the steps that lead from one circuit text to another.
#[unsafe(no_mangle)]
pub extern "C" fn yilgorza_slip(
    first: &[u8],
    first_list: &mut [u16],
    slip: &[u8],
    second: &[u8],
    second_list: &mut [u16],
    outcome: &mut [u64; 4],
)
    ensures { TellsTwo (λ l m x. Slip first.now l slip.now second.now m x) first_list.old second_list.old outcome.new first_list.new second_list.new }
{
    let d = slips::slip_codes(first, first_list.len(), slip, second, second_list.len());
    hand_over_two(d, first_list, second_list, outcome);
}

// Reads a record of the gate list.
#[unsafe(no_mangle)]
pub extern "C" fn yilgorza_gate(code: u16, gate: &mut [u8; 3])
    ensures { RecordParts code gate.new }
{
    *gate = parts::read(code);
}
