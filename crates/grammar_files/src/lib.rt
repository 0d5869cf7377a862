// The reading of files beside the grammar is laws alone.

#![tactic(auto)]
