// The 15 rules of the contract side, laid out flat in the order of their marks.

// The shapes, by number.
const KEY_OF: u32 = 0;

const TREE_LEVELS: u32 = 13;

const TREE_PARENT: u32 = 14;

const TARGET_IN: u32 = 15;

const LEAF_IN: u32 = 17;

// Nine numbers a mark: the shape, the file whose records are judged, the file that is looked into,
// the deciding field, and five that the shape reads.
pub const RULE_ROWS: [u32; 135] = [
    KEY_OF, // 4: key of Subcontractors: ID
    0,
    0,
    0,
    1,
    0,
    0,
    0,
    0,
    KEY_OF, // 5: key of WBS: ID
    1,
    1,
    1,
    1,
    0,
    0,
    0,
    0,
    KEY_OF, // 6: key of OBS: ID
    2,
    2,
    1,
    1,
    0,
    0,
    0,
    0,
    KEY_OF, // 7: key of ControlAccounts: ID
    3,
    3,
    1,
    1,
    0,
    0,
    0,
    0,
    TARGET_IN, // 8: OBS SubcontractorID in Subcontractors ID
    2,
    0,
    3,
    0,
    0,
    0,
    0,
    0,
    TARGET_IN, // 9: WBS ParentID in WBS ID
    1,
    1,
    3,
    0,
    0,
    0,
    0,
    1,
    TARGET_IN, // 10: OBS ParentID in OBS ID
    2,
    2,
    4,
    0,
    0,
    0,
    0,
    1,
    TARGET_IN, // 11: ControlAccounts WBSElementID in WBS ID
    3,
    1,
    10,
    0,
    0,
    0,
    0,
    1,
    TARGET_IN, // 12: ControlAccounts OBSElementID in OBS ID
    3,
    2,
    11,
    0,
    0,
    0,
    0,
    1,
    TREE_LEVELS, // 13: WBS Level
    1,
    1,
    0,
    0,
    0,
    0,
    0,
    0,
    TREE_LEVELS, // 14: OBS Level
    2,
    2,
    0,
    0,
    0,
    0,
    0,
    0,
    TREE_PARENT, // 15: WBS ParentID by Level: the parent's ID
    1,
    1,
    3,
    0,
    1,
    0,
    0,
    0,
    TREE_PARENT, // 16: OBS ParentID by Level: the parent's ID
    2,
    2,
    4,
    0,
    1,
    0,
    0,
    0,
    LEAF_IN, // 17: ControlAccounts WBSElementID: a leaf of WBS by ID and Level
    3,
    1,
    10,
    1,
    0,
    0,
    0,
    0,
    LEAF_IN, // 18: ControlAccounts OBSElementID: a leaf of OBS by ID and Level
    3,
    2,
    11,
    1,
    0,
    0,
    0,
    0,
];
