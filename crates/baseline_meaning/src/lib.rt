// Laws of the baseline profile: the cases of its readings, and what is told of its marks. No code.

#![tactic(auto)]
