// That no character is cut in two is a definition and its laws alone: `cut_value` has the code.

#![tactic(auto)]
