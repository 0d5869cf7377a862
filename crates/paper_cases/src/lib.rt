// The worked cases of document 01 are definitions and one law over them: the crates that they stand on have the code.

#![tactic(auto)]
