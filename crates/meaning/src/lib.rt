// What a circuit of NCV gates does to the states of its lines: definitions and theorems only.
#![tactic(auto)]
