// No code: laws of changes of a drawer in either order, and of a change that is undone.

#![tactic(auto)]
