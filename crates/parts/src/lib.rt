// A record of the gate list, read as kind, control and target.
#![tactic(auto)]

ghost use Rattle.std.specs.Prelude.{◌≡◌};
ghost use Rattle.gates.specs.Code.{Code};
ghost use Rattle.gates.specs.Whether.{Whether};
ghost use Rattle.parts.specs.Parts.{gate_parts, RecordParts};

use gates::Gate;

// Whether a number is that of a gate on 32 lines: a NOT of power 2, or a gate with a power whose control is not its target.
fn is_code(k: u16) -> bool
    ensures { Whether (Code 32 k) result }
{
    match (k / 4 % 33, k % 4) {
        _ if 4224 <= k => false,
        (0, power) => power == 2,
        (_, 0) => false,
        (slot, _) => slot != k / 132 + 1,
    }
}

// A gate as kind, control and target, the three numbers that C sees.
#[tactic(auto, unfolding(crate::specs::Parts::gate_parts))]
fn gate_parts(g: Gate) -> [u8; 3]
    ensures { result ≡ gate_parts g }
{
    match g {
        Gate::Not(target) => [4, 0, target],
        Gate::Powered(power, control, target) => [power, control, target],
    }
}

// Reads a record: 0, 0, 0 for a number that no gate on 32 lines has.
pub fn read(code: u16) -> [u8; 3]
    ensures { RecordParts code result }
{
    if is_code(code) {
        return gate_parts(gates::decode(code));
    }
    [0, 0, 0]
}
