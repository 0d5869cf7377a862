// What the rules mean is definitions and their laws alone: the rules' own crates have the code.

#![tactic(auto)]
