// The machine between the readers and the grammar is definitions and laws alone, and no statement names it.

#![tactic(auto)]
