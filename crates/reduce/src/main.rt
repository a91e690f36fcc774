// Reduces a circuit text, of the file named or else on standard input.
#![tactic(auto)]

use console::Program;

fn main(rt: HostRuntime) {
    console::run(&rt, Program::Reduce);
}
