// What document 01 and the orders ask of map and reduce, that they do it, and what they said before: definitions and theorems only.
#![tactic(auto)]
