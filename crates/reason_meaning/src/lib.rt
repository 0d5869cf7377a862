// What a reason means is definitions and laws alone: the crates that judge and tell have the code.

#![tactic(auto)]
