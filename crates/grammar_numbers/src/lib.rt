// The number reader beside the grammar is laws alone.

#![tactic(auto)]
