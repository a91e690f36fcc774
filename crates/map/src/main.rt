// Maps a cascade text, of the file named or else on standard input, to a circuit text.
#![tactic(auto)]

use console::Program;

fn main(rt: HostRuntime) {
    console::run(&rt, Program::Map);
}
