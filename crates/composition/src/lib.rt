// Circuits as numbers of gates: the inverse of one, in place, and one behind another.
#![tactic(auto)]

ghost use Rattle.std.specs.Prelude.{◌≡◌, ◌++◌, ◌+◌, ◌≤◌, length, take};
ghost use Rattle.gates.specs.Code.{AllCodes};
ghost use Rattle.composition.specs.Composition.{inverse_codes};

// Inverts the gates in place: they are reversed, and v and vp exchanged.
pub fn invert(list: &mut [u16])
    requires { AllCodes 32 list.old }
    ensures { list.new ≡ inverse_codes list.old }
{
    for code in list.iter_mut() {
        *code = gates::inverted(*code);
    }
    list.reverse();
}

// Puts the gates of another list behind the first m of this one.
pub fn append(list: &mut [u16], m: usize, more: &[u16])
    requires { m + length more.now ≤ length list.old }
    ensures { take (m + length more.now) list.new ≡ take m list.old ++ more.now }
{
    list[m..m + more.len()].copy_from_slice(more);
}
