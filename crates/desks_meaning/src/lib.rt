// What the definitions of the desks mean is laws alone: see `proofs/`.

#![tactic(auto)]
