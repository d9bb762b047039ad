// Cases with their numbers, proved: the crate has no code, its specs hold the one checked table.
#![tactic(auto)]
