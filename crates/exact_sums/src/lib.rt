// Exact sums are definitions and laws alone: of whole numbers that a function gives, of lists of them, and of
// when a signed 64-bit number holds one. A crate above adds.

#![tactic(auto)]
