// What a table that holds means is definitions and laws alone: the crates that read and judge tables have the code.

#![tactic(auto)]
