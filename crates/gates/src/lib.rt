// A gate by value, and a gate as a number.
#![tactic(auto)]

ghost use Rattle.std.specs.Prelude.{◌≡◌, ◌<◌};
ghost use Rattle.gates.specs.Code.{Code, code, gate};
ghost use Rattle.gates.specs.Inverse.{inverted as inverted_gate};

// A NOT on a target; or a power, a control and a target.
#[derive(Clone, Copy)]
pub enum Gate {
    Not(u8),
    Powered(u8, u8, u8),
}

// The number of a gate.
pub fn encode(g: Gate) -> u16
    ensures { result ≡ code g }
{
    match g {
        Gate::Not(t) => u16::from(t) * 33 * 4 + 2,
        Gate::Powered(p, c, t) => { (u16::from(t) * 33 + u16::from(c) + 1) * 4 + u16::from(p) }
    }
}

// The gate of a number.
pub fn decode(k: u16) -> Gate
    requires { k < 4224 }
    ensures { result ≡ gate k }
{
    let target = (k / 132) as u8;
    let slot = (k / 4 % 33) as u8;
    if slot == 0 {
        return Gate::Not(target);
    }
    Gate::Powered((k % 4) as u8, slot - 1, target)
}

// The number of a gate with v and vp exchanged.
pub fn inverted(k: u16) -> u16
    requires { Code 32 k }
    ensures { result ≡ code (inverted_gate (gate k)) }
{
    if k / 4 % 33 == 0 {
        return k;
    }
    k / 4 * 4 + (4 - k % 4)
}
