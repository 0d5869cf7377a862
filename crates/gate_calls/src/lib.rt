// The calls of any gate are definitions and laws: see `specs/` and `proofs/`.

#![tactic(auto)]
