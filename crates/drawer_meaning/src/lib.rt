// What a change of a drawer comes to is laws alone: see `proofs/`.

#![tactic(auto)]
