// No code: laws of changes of two desks and their calendars in either order, and of a change that is undone.

#![tactic(auto)]
