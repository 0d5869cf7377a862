// What the calls over a drawer answer, for any gate. No code.

#![tactic(auto)]
