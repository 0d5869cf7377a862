// What is told of one mark (document 02, order 6). The answer stands here alone, so that what prints a
// reason or hands it to C need know no rule.

// What is shown of a rule that is broken.
#![tactic(auto)]

#[derive(Clone, Copy)]
pub struct Shown {
    // the file whose record breaks the rule
    pub file: usize,
    // the first record that does, counted from 1
    pub record: usize,
    // the record that goes with it, counted from 1: of a repeated key the earliest that has it, of 79 and 80
    // the parent; 0 for none
    pub companion: usize,
    // the deciding field, counted within its table
    pub field: usize,
    // where its value stands in the bundle, quotes included; 0 and 0 for null
    pub start: usize,
    pub length: usize,
}

// Refusals and kinds stay the numbers of the documents, which the C interface hands on.
#[derive(Clone, Copy)]
pub enum Reason {
    // 14 for a workspace that is too short, before all else; 1, 2 and 3 for the bundle; then 7 for a
    // number that is no mark's
    Refused {
        refusal: u32,
    },
    // the mark holds
    Holds,
    // a rule that is not judged, with the lowest-numbered unreadable file among those that it reads
    NotJudged {
        file: usize,
    },
    // a file's own mark that doesn't hold: "its numbers alone"
    OwnMark {
        kind: u32,
        place: usize,
        companion: usize,
    },
    // a rule that is broken
    Broken {
        shown: Shown,
    },
    // a rule that is broken for want of a target, marks 48–64: no record of the file searched has the value
    Missing {
        shown: Shown,
        searched: usize,
    },
}
