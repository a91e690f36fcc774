// Cascades of multiple-control Toffoli gates and their expansion into NCV gates: definitions and theorems, and the control.
#![tactic(auto)]

// A control: its line, and its sign; a negated one is met when its line is 0.
#[derive(Clone, Copy)]
pub struct Control {
    pub line: u8,
    pub negated: bool,
}
