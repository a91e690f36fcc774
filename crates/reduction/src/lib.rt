// A list of gates reduced in place, a gate as its number, in two steps: each gate in turn is merged with its partner among those before it, or
// pushed at their end, which leaves a circuit with the fewest gates of those linked to the list; and this is brought into dictionary order.
#![tactic(auto)]

ghost use Rattle.std.specs.Prelude.{◌≤◌, length};
ghost use Rattle.gates.specs.Code.{AllCodes};
ghost use Rattle.reduction.specs.Reducing.{ReducedTo};

// Reduces the gates, and gives their new number; the places of those that are gone are then 0.
pub fn reduce(list: &mut [u16]) -> usize
    requires list_len { length list.old ≤ 4096 }
    requires all_codes { AllCodes 32 list.old }
    ensures { ReducedTo list.old (length list.old) result list.new }
{
    let mut first = [0u16; 4096];
    let mut second = [0u16; 4096];
    let mut third = [0u16; 4096];
    let r = merging::merge_partners(list, &mut first, &mut second, &mut third);
    selection::order(&mut list[..r], &mut first, &mut second, &mut third);
    list[r..].fill(0);
    r
}
