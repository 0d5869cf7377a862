// Two desks and one set of calendars (document 02, order 10): to whom a change is, and what a desk sees of
// it. The rest is definitions and laws: see `specs/` and `proofs/`.

// Whose bundle a change is to.
#![tactic(auto)]

#[derive(Clone, Copy)]
pub enum Whose {
    DeskA,
    DeskB,
    Calendars,
}

// What a desk sees of a change: nothing of the other desk's, else whether it is of its own bundle or of the
// calendars.
#[derive(Clone, Copy)]
pub enum Seen {
    Nothing,
    Own,
    Shared,
}
