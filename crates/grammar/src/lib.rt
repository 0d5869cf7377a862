// The grammar of JSON is definitions alone: crates above it prove that the readers read it.

#![tactic(auto)]
