// Runs of changes in a drawer are laws alone: see `proofs/`.

#![tactic(auto)]
