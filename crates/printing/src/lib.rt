// What the programs write: theorems only.
#![tactic(auto)]
