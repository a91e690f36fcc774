// The habits of jobs over several texts: definitions and theorems only.
#![tactic(auto)]
