// The order of circuits: how two lists of gates, each on its number of lines, compare.
#![tactic(auto)]

ghost use Rattle.std.specs.Prelude.{◌≡◌};
ghost use Rattle.ordering.specs.Comparing.{count_of, compare_numbers, dictionary};

use std::cmp::Ordering;

// The count of document 02's order 1. Neither type is of this crate, so there can be no `From`.
#[tactic(auto, unfolding(crate::specs::Comparing::count_of))]
pub fn count(c: Ordering) -> usize
    ensures { result ≡ count_of c }
{
    match c {
        Ordering::Less => 0,
        Ordering::Equal => 1,
        Ordering::Greater => 2,
    }
}

// Two lists of codes, in dictionary order; a list that ends sooner comes first.
#[tactic(auto, using(crate::proofs::Library::dictionary_numbers))]
pub fn codes(first: &[u16], second: &[u16]) -> Ordering
    ensures { result ≡ dictionary compare_numbers first.now second.now }
{
    first.cmp(second)
}
