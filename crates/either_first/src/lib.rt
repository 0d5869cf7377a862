// No code: laws of changes that come in either order, and of a change that is undone.

#![tactic(auto)]
