// The job compare: are two files one circuit, and which comes first if not.
#![tactic(auto)]

ghost use Rattle.std.specs.Prelude.{◌≡◌, ◌≤◌, length};
ghost use Rattle.loading.specs.Loaded.{Renderable};
ghost use Rattle.text.specs.declared.Kind.TheVariants.{Circuit};
ghost use Rattle.jobs.specs.Jobs.{judged_text};
ghost use Rattle.jobs.specs.Handing.{exit_of_two, LoadsReduced, Answerable};
ghost use Rattle.comparison.specs.Compare.{Compare, Hands, comparison, compared_done};

use gates::Gate;
use loading::Loaded;
use records::{DoneTwo, GATES, TextOutcome};
use std::cmp::Ordering;
use text::{Kind, Refused};

// Loads a circuit text, where its gate list has `room` records, and reduces its circuit.
fn load(text: &[u8], room: usize, codes: &mut [u16]) -> Result<Loaded, Refused>
    requires { 4096 ≤ length codes.old }
    ensures { LoadsReduced (judged_text Circuit text.now room) codes.new result }
{
    jobs::load_reduced(Kind::Circuit, text, room, codes)
}

// By number of lines first, then by the codes of the reduced lists. Not by `then_with`: an answer could not name what its closure ensures.
fn compare_lists(
    first: Loaded,
    codes: &[u16; GATES],
    second: Loaded,
    codes2: &[u16; GATES],
) -> Ordering
    requires { Renderable first.head first.gates codes.now × Renderable second.head second.gates codes2.now }
    ensures { result ≡ comparison first.head first.gates codes.now second.head second.gates codes2.now }
{
    match first.head.lines.cmp(&second.head.lines) {
        Ordering::Equal => ordering::codes(&codes[..first.gates], &codes2[..second.gates]),
        unequal => unequal,
    }
}

// The answer where the first text is accepted: by the second's reduced list or its refusal.
fn answer_second(
    first: Loaded,
    second: Result<Loaded, Refused>,
    room: usize,
    room2: usize,
    codes: [u16; GATES],
    codes2: [u16; GATES],
) -> DoneTwo
    requires { Renderable first.head first.gates codes × Answerable second codes2 }
    ensures { result ≡ compared_done first.head first.gates second room room2 codes codes2 }
{
    match second {
        Ok(second) => {
            let c = ordering::count(compare_lists(first, &codes, second, &codes2));
            outcomes::succeed_two(first.gates, second.gates, c, room, room2, codes, codes2)
        }
        Err(refused) => outcomes::refuse_two(refused.in_text(2), room, room2, codes, codes2),
    }
}

// The covered part of compare.
pub fn compare_codes(first: &[u8], room: usize, second: &[u8], room2: usize) -> DoneTwo
    ensures { Hands first.now room second.now room2 result }
{
    let mut codes = [0u16; GATES];
    let mut codes2 = [0u16; GATES];
    match load(first, room, &mut codes) {
        Ok(reduced) => {
            let loaded = load(second, room2, &mut codes2);
            answer_second(reduced, loaded, room, room2, codes, codes2)
        }
        Err(refused) => outcomes::refuse_two(refused.in_text(1), room, room2, codes, codes2),
    }
}

// Compares two circuit texts: count 0, 1 or 2 if the first is less than the second, equal to it or greater.
pub fn compare(
    first: &[u8],
    first_list: &mut [Gate],
    second: &[u8],
    second_list: &mut [Gate],
) -> TextOutcome
    ensures { Compare first.now first_list.old second.now second_list.old (exit_of_two result first_list.new second_list.new) }
{
    let d = compare_codes(first, first_list.len(), second, second_list.len());
    records::fill(first_list, d.first);
    records::fill(second_list, d.second);
    d.outcome
}
