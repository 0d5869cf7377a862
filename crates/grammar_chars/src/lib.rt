// The readers of characters beside the grammar are laws alone.

#![tactic(auto)]
