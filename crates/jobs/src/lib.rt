// Two jobs: map a cascade text, or quote its gate count alone; reduce a circuit text.
#![tactic(auto)]

ghost use Rattle.std.specs.Prelude.{◌≡◌, [], ◌∷◌, ◌≤◌, length};
ghost use Rattle.text.specs.Judging.{first};
ghost use Rattle.rules.specs.Verdicts.{seen_verdict};
ghost use Rattle.reduction.specs.Reducing.{ReducedTo};
ghost use Rattle.loading.specs.Loaded.{Renderable, LoadsTo};
ghost use Rattle.habits.specs.Habits.{size_rules};
ghost use Rattle.jobs.specs.Jobs.{mapping, reducing, output, writes, judged_text, Says};
ghost use Rattle.jobs.specs.Handing.{LoadsReduced, Hands, Said, Own, written_done, written_area, quotes, put_done, put_area, loaded_done, loaded_area, Answerable};

use gates::Gate;
use loading::Loaded;
use records::{Done, GATES, Outcome};
use text::{Kind, Refusal, Refused};

// The gates of a circuit, which are the first codes, written as a circuit text, where the answer area has room for it. Head and count stand apart from
// the codes (`Renderable`): these are lent, and changed in place, from the loading of a text on.
pub fn answer_text(
    reduced: Loaded,
    room: usize,
    codes: [u16; GATES],
    answer: &mut [u8],
) -> Done<Outcome>
    requires { Renderable reduced.head reduced.gates codes }
    ensures { (result ≡ written_done reduced.head reduced.gates room codes answer.old) × (answer.new ≡ written_area reduced.head reduced.gates codes answer.old) }
{
    let circuit = &codes[..reduced.gates];
    let size = writing::measure(reduced.head, circuit);
    if answer.len() < size {
        let short = Refused {
            refusal: Refusal::ShortAnswer,
            line: 0,
        };
        return outcomes::refuse(short, room, codes);
    }
    let bytes = writing::write_circuit(reduced.head, circuit, answer);
    outcomes::succeed(reduced.gates, bytes, room, codes)
}

// Whether the job over a text of this kind only quotes, with an answer area of this size: map does, if the area is empty. `writes`, of which the
// contracts speak, goes by the kind too.
fn quote_only(kind: Kind, size: usize) -> bool
    ensures { result ≡ quotes (output (writes kind) size) }
{
    match kind {
        Kind::Cascade => size == 0,
        Kind::Circuit => false,
    }
}

// The answer by the reduced list: the number of its gates alone, or its text too.
fn put_out(
    kind: Kind,
    reduced: Loaded,
    room: usize,
    codes: [u16; GATES],
    answer: &mut [u8],
) -> Done<Outcome>
    requires { Renderable reduced.head reduced.gates codes }
    ensures { (result ≡ put_done (output (writes kind) (length answer.old)) reduced.head reduced.gates room codes answer.old) × (answer.new ≡ put_area (output (writes kind) (length answer.old)) reduced.head reduced.gates codes answer.old) }
{
    if quote_only(kind, answer.len()) {
        return outcomes::succeed(reduced.gates, 0, room, codes);
    }
    answer_text(reduced, room, codes, answer)
}

// The answer of the job over a text of this kind, by the reduced list or the refusal.
pub fn answer_loaded(
    kind: Kind,
    loaded: Result<Loaded, Refused>,
    room: usize,
    codes: [u16; GATES],
    answer: &mut [u8],
) -> Done<Outcome>
    requires { Answerable loaded codes }
    ensures { (result ≡ loaded_done (output (writes kind) (length answer.old)) loaded room codes answer.old) × (answer.new ≡ loaded_area (output (writes kind) (length answer.old)) loaded codes answer.old) }
{
    match loaded {
        Ok(reduced) => put_out(kind, reduced, room, codes, answer),
        Err(refused) => outcomes::refuse(refused, room, codes),
    }
}

// Rules 1 and 2, for a text of this size and a gate list of `room` records.
fn size_rules(size: usize, room: usize) -> Result<(), Refusal>
    ensures { seen_verdict result ≡ first (size_rules size (room ∷ [])) }
{
    if 60000 < size {
        return Err(Refusal::Overlong);
    }
    if room < 4096 {
        return Err(Refusal::ShortList);
    }
    Ok(())
}

// Loads a text of this kind, where the gate list has `room` records.
pub fn load_text(kind: Kind, text: &[u8], room: usize, codes: &mut [u16]) -> Result<Loaded, Refused>
    requires { 4096 ≤ length codes.old }
    ensures { LoadsTo (judged_text kind text.now room) codes.new result }
{
    if let Err(refusal) = size_rules(text.len(), room) {
        return Err(Refused { refusal, line: 0 });
    }
    loading::load(kind, text, codes)
}

// Reduces the circuit of a text that was loaded.
pub fn reduce_loaded(loaded: Loaded, codes: &mut [u16]) -> Loaded
    requires loaded_in_bounds { loaded.gates ≤ length codes.old }
    requires renderable { Renderable loaded.head loaded.gates codes.old }
    ensures head { result.head ≡ loaded.head }
    ensures reduced { ReducedTo codes.old loaded.gates result.gates codes.new }
{
    let fewer = reduction::reduce(&mut codes[..loaded.gates]);
    Loaded {
        head: loaded.head,
        gates: fewer,
    }
}

// Loads a text so, and reduces its circuit.
pub fn load_reduced(
    kind: Kind,
    text: &[u8],
    room: usize,
    codes: &mut [u16],
) -> Result<Loaded, Refused>
    requires { 4096 ≤ length codes.old }
    ensures { LoadsReduced (judged_text kind text.now room) codes.new result }
{
    let loaded = load_text(kind, text, room, codes)?;
    Ok(reduce_loaded(loaded, codes))
}

// The covered part of the job over a text of this kind.
pub fn text_codes(kind: Kind, text: &[u8], room: usize, answer: &mut [u8]) -> Done<Outcome>
    ensures { Hands (writes kind) text.now room answer.old result answer.new }
{
    let mut codes = [0u16; GATES];
    let reduced = load_reduced(kind, text, room, &mut codes);
    answer_loaded(kind, reduced, room, codes, answer)
}

// The job over a text of this kind: map of a cascade, reduce of a circuit.
fn job(kind: Kind, text: &[u8], list: &mut [Gate], answer: &mut [u8]) -> Outcome
    ensures { Said (writes kind) text.now list.old answer.old result list.new answer.new }
{
    let d = text_codes(kind, text, list.len(), answer);
    records::fill(list, d.filling);
    d.outcome
}

// The same with a gate list of its own.
fn own_list(kind: Kind, text: &[u8], answer: &mut [u8]) -> Outcome
    ensures { Own (writes kind) text.now answer.old result answer.new }
{
    let mut list = [Gate::Not(0); 4096];
    job(kind, text, &mut list, answer)
}

// Maps a cascade text to a circuit text. With an empty answer area it quotes the gate count alone.
pub fn map(text: &[u8], list: &mut [Gate], answer: &mut [u8]) -> Outcome
    ensures { Says mapping (record { text = text.entry.now; list = list.old; area = answer.old }) (record { number = result.number; line = result.line; gates = result.gates; bytes = result.bytes; list = list.new; area = answer.new }) }
{
    job(Kind::Cascade, text, list, answer)
}

// Reduces a circuit text.
pub fn reduce(text: &[u8], list: &mut [Gate], answer: &mut [u8]) -> Outcome
    ensures { Says reducing (record { text = text.entry.now; list = list.old; area = answer.old }) (record { number = result.number; line = result.line; gates = result.gates; bytes = result.bytes; list = list.new; area = answer.new }) }
{
    job(Kind::Circuit, text, list, answer)
}

// Map with a gate list of its own, as reduce below.
pub fn map_text(text: &[u8], answer: &mut [u8]) -> Outcome
    ensures { Own mapping text.now answer.old result answer.new }
{
    own_list(Kind::Cascade, text, answer)
}

pub fn reduce_text(text: &[u8], answer: &mut [u8]) -> Outcome
    ensures { Own reducing text.now answer.old result answer.new }
{
    own_list(Kind::Circuit, text, answer)
}
