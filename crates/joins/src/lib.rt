// The job join: one circuit behind another.
#![tactic(auto)]

ghost use Rattle.std.specs.Prelude.{◌≤◌, length};
ghost use Rattle.loading.specs.Loaded.{Renderable};
ghost use Rattle.jobs.specs.Handing.{exit_of_text};
ghost use Rattle.joins.specs.Join.{judged, join_circuits, JoinsTo, Join, Hands};

use gates::Gate;
use loading::Loaded;
use records::{Done, GATES, TextOutcome};
use text::{Kind, Refusal, Refused, TextRefused};

// The gates of the second circuit behind those of the first. Whether they fit is judged from the two numbers, before any gate is joined.
fn join_circuits(
    first: Loaded,
    second: Loaded,
    codes: &mut [u16],
    more: &[u16],
) -> Result<Loaded, TextRefused>
    requires in_bounds { (4096 ≤ length codes.old) × (4096 ≤ length more.now) }
    requires renderable { Renderable first.head first.gates codes.old × Renderable second.head second.gates more.now }
    ensures { JoinsTo (join_circuits first.head first.gates codes.old second.head second.gates more.now) codes.new result }
{
    if first.head.lines != second.head.lines {
        return Err(TextRefused {
            refusal: Refusal::DifferentLines,
            text: 0,
            line: 0,
        });
    }
    let (m, n) = (first.gates, second.gates);
    if GATES - m < n {
        return Err(TextRefused {
            refusal: Refusal::TooMany,
            text: 2,
            line: GATES - m + 2,
        });
    }
    composition::append(codes, m, &more[..n]);
    Ok(Loaded {
        head: first.head,
        gates: m + n,
    })
}

// Loads both texts, where the gate list has `room` records, and joins their circuits.
fn load_join(
    first: &[u8],
    room: usize,
    second: &[u8],
    codes: &mut [u16],
) -> Result<Loaded, TextRefused>
    requires { 4096 ≤ length codes.old }
    ensures { JoinsTo (judged first.now room second.now) codes.new result }
{
    let first = jobs::load_text(Kind::Circuit, first, room, codes).map_err(|r| r.in_text(1))?;
    let mut more = [0u16; GATES];
    let loaded = jobs::load_text(Kind::Circuit, second, GATES, &mut more);
    let second = loaded.map_err(|r| r.in_text(2))?;
    join_circuits(first, second, codes, &more)
}

// The covered part of join.
pub fn join_codes(first: &[u8], room: usize, second: &[u8], answer: &mut [u8]) -> Done<TextOutcome>
    ensures { Hands first.now room second.now answer.old result answer.new }
{
    let mut codes = [0u16; GATES];
    match load_join(first, room, second, &mut codes) {
        Ok(joined) => {
            let reduced = jobs::reduce_loaded(joined, &mut codes);
            let d = jobs::answer_text(reduced, room, codes, answer);
            outcomes::with_text(d, 0)
        }
        Err(refused) => {
            let r = Refused {
                refusal: refused.refusal,
                line: refused.line,
            };
            outcomes::with_text(outcomes::refuse(r, room, codes), refused.text)
        }
    }
}

// Joins two circuit texts on the same number of lines, the first before the second, and reduces.
pub fn join(first: &[u8], list: &mut [Gate], second: &[u8], answer: &mut [u8]) -> TextOutcome
    ensures { Join first.now list.old second.now answer.old (exit_of_text result list.new answer.new) }
{
    let d = join_codes(first, list.len(), second, answer);
    records::fill(list, d.filling);
    d.outcome
}
