// What a file's strings and numbers mean is definitions and their laws alone: the readers' own crates have the code.

#![tactic(auto)]
