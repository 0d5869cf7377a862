// The cells of a file beside its objects are definitions and laws alone.

#![tactic(auto)]
