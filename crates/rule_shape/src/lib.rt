// A rule as a data type, a variant for each shape of document 01, "Marks 20 to 80", and of document
// 02, and the rows of numbers that a list of rules is laid out in. A row is nine numbers: the shape, the file whose
// records are judged, the file that is looked into, the deciding field, and five that the shape
// reads.
#![tactic(auto)]

ghost use Rattle.std.specs.Prelude.{◌≡◌, ◌/◌, length};
ghost use Rattle.table_rows.specs.Rows.{cell_at};
ghost use Rattle.rule_shape.specs.Rule.{first_file_of, second_file_of, rule_of, rule_from};

use rule_key::Key;
use rule_when::When;
use table_rows::cell_at;

// Files go by number. Fields are counted within their table, enumeration values through all
// enumerations; a run of fields ends before `to`.
#[derive(Clone, Copy)]
pub enum Rule {
    // 20–35, "primary keys": "Broken at a record whose key equals an earlier one's."
    KeyOf {
        file: usize,
        key: Key,
    },
    // 36–47, "enumerations": one of `count` values from `first` on; "Null holds."
    OneOf {
        file: usize,
        field: usize,
        first: u32,
        count: u32,
    },
    // 65, 66, 72, 76: null unless the record meets the condition.
    NullUnless {
        file: usize,
        field: usize,
        when: When,
    },
    // 71: given if the record meets it.
    GivenIf {
        file: usize,
        field: usize,
        when: When,
    },
    // 77: given unless the record meets it.
    GivenUnless {
        file: usize,
        field: usize,
        when: When,
    },
    // 68, 70: "no hours below zero" among the fields of a run.
    NoneBelow {
        file: usize,
        from: usize,
        to: usize,
    },
    // 69: "some hours above zero; null is 0".
    SomeAbove {
        file: usize,
        from: usize,
        to: usize,
    },
    // 75: the fields of a run "all null or none".
    Together {
        file: usize,
        from: usize,
        to: usize,
    },
    // 78: "first Level 1, every Level at least 1, each at most one more than the one before".
    LevelRun {
        file: usize,
        level: usize,
    },
    // 79: "Level 1 has null ParentTaskID; any other has the TaskID of its parent".
    ParentGiven {
        file: usize,
        parent: usize,
        level: usize,
        id: usize,
    },
    // Document 02, order 8. 81: "all five .. given", of the fields of a run.
    AllGiven {
        file: usize,
        from: usize,
        to: usize,
    },
    // 82, 84: none of the fields of a run is given; 0 is given.
    NoneGiven {
        file: usize,
        from: usize,
        to: usize,
    },
    // 83: the first Date "not after" the second "where both are given".
    InOrder {
        file: usize,
        first: usize,
        second: usize,
    },
    // Document 02, order 9, the contract side. 13, 14: the first Level is 1, every other at least 2 and at
    // most one more than the one before.
    TreeLevels {
        file: usize,
        level: usize,
    },
    // 15, 16: the first record has a null parent; any other has the `id` of its parent.
    TreeParent {
        file: usize,
        parent: usize,
        level: usize,
        id: usize,
    },
    // 48–64, "targets": where the record meets the condition, some record of the other file has the
    // field's value as its `id`; "Null holds."
    TargetIn {
        file: usize,
        field: usize,
        when: When,
        other: usize,
        id: usize,
    },
    // 80: for each record "with Level other than 1 and a parent", some record of the other file that
    // has the parent's `id` as its `other_id` has the value as its `other_type`.
    ParentIs {
        file: usize,
        parent: usize,
        level: usize,
        id: usize,
        other: usize,
        other_id: usize,
        other_type: usize,
        value: usize,
    },
    // Document 02, order 9, 17, 18: no record of the other file that has the field's value as its `id` has
    // a child by Level and sequence.
    LeafIn {
        file: usize,
        field: usize,
        other: usize,
        id: usize,
        level: usize,
    },
    // 67, 73, 74: "each calendar has a workshift" and the like. It asks what `TargetIn` does, but of the
    // record that something must stand for, so it is no missing target where it breaks.
    EachHas {
        file: usize,
        field: usize,
        when: When,
        other: usize,
        id: usize,
    },
}

// ---- Rows

// Number j of row i; 0 past the rows.
pub fn row_cell(rows: &[u32], i: usize, j: usize) -> u32
    ensures { result ≡ cell_at rows.now 9 i j }
{
    cell_at(rows, 9, i, j)
}

fn column(rows: &[u32], i: usize, j: usize) -> usize
    ensures { result ≡ cell_at rows.now 9 i j }
{
    row_cell(rows, i, j) as usize
}

pub fn rule_count(rows: &[u32]) -> usize
    ensures { result ≡ length rows.now / 9 }
{
    rows.len() / 9
}

// The file whose records rule i judges.
pub fn first_file(rows: &[u32], i: usize) -> usize
    ensures { result ≡ first_file_of (rule_from rows.now i) }
{
    column(rows, i, 1)
}

// The file that rule i looks into: its own where it looks into no other.
pub fn second_file(rows: &[u32], i: usize) -> usize
    ensures { result ≡ second_file_of (rule_from rows.now i) }
{
    if row_cell(rows, i, 0) < 15 {
        return column(rows, i, 1);
    }
    column(rows, i, 2)
}

// ---- Rules from rows

// The rule that nine numbers stand for.
fn rule_of(
    shape: u32,
    file: usize,
    other: usize,
    field: usize,
    a: u32,
    b: u32,
    c: u32,
    d: u32,
    e: u32,
) -> Rule
    ensures { result ≡ rule_of shape file other field a b c d e }
{
    let when = When {
        kind: a,
        field: b as usize,
        first: c as usize,
        second: d as usize,
    };
    match shape {
        0 => Rule::KeyOf {
            file,
            key: Key {
                a: field,
                a_kind: a,
                b: b as usize,
                b_kind: c,
                c: d as usize,
                c_kind: e,
            },
        },
        1 => Rule::OneOf {
            file,
            field,
            first: a,
            count: b,
        },
        2 => Rule::NullUnless { file, field, when },
        3 => Rule::GivenIf { file, field, when },
        4 => Rule::GivenUnless { file, field, when },
        5 => Rule::NoneBelow {
            file,
            from: field,
            to: a as usize,
        },
        6 => Rule::SomeAbove {
            file,
            from: field,
            to: a as usize,
        },
        7 => Rule::Together {
            file,
            from: field,
            to: a as usize,
        },
        8 => Rule::LevelRun { file, level: field },
        9 => Rule::ParentGiven {
            file,
            parent: field,
            level: a as usize,
            id: b as usize,
        },
        10 => Rule::AllGiven {
            file,
            from: field,
            to: a as usize,
        },
        11 => Rule::NoneGiven {
            file,
            from: field,
            to: a as usize,
        },
        12 => Rule::InOrder {
            file,
            first: field,
            second: a as usize,
        },
        13 => Rule::TreeLevels { file, level: field },
        14 => Rule::TreeParent {
            file,
            parent: field,
            level: a as usize,
            id: b as usize,
        },
        15 => Rule::TargetIn {
            file,
            field,
            when,
            other,
            id: e as usize,
        },
        16 => Rule::ParentIs {
            file,
            parent: field,
            level: a as usize,
            id: b as usize,
            other,
            other_id: c as usize,
            other_type: d as usize,
            value: e as usize,
        },
        17 => Rule::LeafIn {
            file,
            field,
            other,
            id: a as usize,
            level: b as usize,
        },
        _ => Rule::EachHas {
            file,
            field,
            when,
            other,
            id: e as usize,
        },
    }
}

// Rule i of the rows.
pub fn rule_at(rows: &[u32], i: usize) -> Rule
    ensures { result ≡ rule_from rows.now i }
{
    rule_of(
        row_cell(rows, i, 0),
        column(rows, i, 1),
        column(rows, i, 2),
        column(rows, i, 3),
        row_cell(rows, i, 4),
        row_cell(rows, i, 5),
        row_cell(rows, i, 6),
        row_cell(rows, i, 7),
        row_cell(rows, i, 8),
    )
}
