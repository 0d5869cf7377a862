// Laws of the contract side's gate: the cases of its readings, and what is told of its marks. No code.

#![tactic(auto)]
