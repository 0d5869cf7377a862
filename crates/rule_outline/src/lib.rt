// The rules of an outline, over a table with a column of Levels: the run of Levels, the parent of
// each record, and the type of the parent's task. Fields are given by number, so that any table
// with such a column can be judged.
#![tactic(auto, using(crate::proofs::Laws::outlining, rule_cells::proofs::Laws::searching), unfolding(crate::specs::Outline::held_in, crate::specs::Outline::parent_shown, crate::specs::Outline::parent_rule, crate::specs::Outline::parent_type_breaks, crate::specs::Outline::parent_type_rule, crate::specs::Outline::outline_at, crate::specs::Outline::level_rule, rule_cells::specs::Cells::first_that))]

ghost use Rattle.std.specs.Prelude.{◌≡◌, length};
ghost use Rattle.rule_cells.specs.Seen.{seen, cells_seen};
ghost use Rattle.rule_outline.specs.Outline.{level_of, lower_before, parents_up_to, parents_have_room, with_parents, held_in, run_breaks, level_rule, parent_shown, parent_breaks, parent_rule, some_of, is_typed, parent_type_breaks, parent_type_rule};

use json_number::{Integer, one_digit};
use rule_cells::Table;

// Levels are kept ten to the fifteenth higher, so that none is below 0.
const LEVEL_ZERO: u64 = 1_000_000_000_000_000;

pub const LEVEL_ONE: u64 = 1_000_000_000_000_001;

// The first breaking record and its parent, both counted from 1. No record: 0 and 0. The parent is
// 0 where the record has none, or is of Level 1.
// It stays two numbers: outline_at of specs, which may not change, gives them, and a mark has them as its place and companion.
#[derive(Clone, Copy)]
pub struct Outline {
    pub record: usize,
    pub parent: usize,
}

// The Level of record r. Most are one digit, which needs no Integer to be made and taken apart.
#[tactic(auto, unfolding(crate::specs::Outline::level_of, crate::specs::Outline::raised, rule_cells::specs::Cells::integer_in))]
pub fn level_of(table: &Table, r: usize, level: usize) -> u64
    ensures { result ≡ level_of (seen table.now) level r }
{
    if table.is_given(r, level) {
        let digit = one_digit(table.text, table.start_of(r, level));
        if digit < 10 {
            return LEVEL_ZERO + digit;
        }
    }
    match table.integer_in(r, level) {
        Integer::Is {
            negative,
            magnitude,
        } => {
            if negative {
                LEVEL_ZERO - magnitude
            } else {
                LEVEL_ZERO + magnitude
            }
        }
        Integer::Fraction | Integer::TooLarge => 0,
    }
}

// Whether a Level breaks the run behind the Level before it. A first Level stands as if behind
// Level 0, and so has to be 1.
#[tactic(auto, unfolding(crate::specs::Outline::run_breaks))]
fn run_breaks(before: u64, at: u64) -> bool
    ensures { result ≡ run_breaks before at }
{
    at < LEVEL_ONE || before < at - 1
}

// Mark 78, the run of Levels: the first breaking record.
pub fn level_rule(table: &Table, level: usize) -> usize
    ensures { result ≡ level_rule (seen table.now) level }
{
    let mut above = LEVEL_ZERO;
    for r in 0..table.records {
        let at = level_of(table, r, level);
        if run_breaks(above, at) {
            return r + 1;
        }
        above = at;
    }
    0
}

// The nearest record of lower Level than `low`, where `parents` has the parents of all records
// before. A record that is not lower has none lower between its parent and itself, so that the way
// goes from parent to parent, and a record that was passed over is never met again.
fn climb(table: &Table, level: usize, low: u64, parents: &[u32]) -> usize
    requires { parents.now ≡ parents_up_to (level_of (seen table.now) level) (length parents.now) }
    ensures { result ≡ lower_before (level_of (seen table.now) level) low (length parents.now) }
{
    let mut p = parents.len();
    while 0 < p {
        let at = level_of(table, p - 1, level);
        if at < low {
            return p;
        }
        p = parents[p - 1] as usize;
    }
    0
}

// Fills the front of `parents` with the parent of each record, in one pass; the answer says whether
// there was room, and without room nothing is written.
#[tactic(auto, unfolding(crate::specs::Outline::with_parents, crate::specs::Outline::parents_have_room, crate::specs::Outline::parents_up_to))]
pub fn fill_parents(table: &Table, level: usize, parents: &mut [u32]) -> bool
    ensures value { result ≡ parents_have_room table.now.records parents.old }
    ensures parents_after { parents.new ≡ with_parents (seen table.now) level parents.old }
{
    if 4096 < table.records || parents.len() < table.records {
        return false;
    }
    for r in 0..table.records {
        let low = level_of(table, r, level);
        let p = climb(table, level, low, &parents[..r]);
        parents[r] = p as u32;
    }
    true
}

// The parent that a list has for record r; 0 past its end.
pub fn parent_in(parents: &[u32], r: usize) -> usize
    ensures { result ≡ held_in parents.now r }
{
    if r < parents.len() {
        parents[r] as usize
    } else {
        0
    }
}

// The parent to be shown of record r: none at Level 1.
#[tactic(auto, unfolding(crate::specs::Outline::parent_shown, rule_cells::specs::Cells::integer_in, crate::specs::Outline::level_of))]
pub fn parent_shown(table: &Table, level: usize, parents: &[u32], r: usize) -> usize
    ensures { result ≡ parent_shown (cells_seen table.now) level (held_in parents.now) r }
{
    if level_of(table, r, level) == LEVEL_ONE {
        0
    } else {
        parent_in(parents, r)
    }
}

// Whether record r breaks mark 79.
#[tactic(auto, unfolding(crate::specs::Outline::parent_breaks, rule_cells::specs::Cells::same_text, rule_cells::specs::Cells::text_of))]
fn parent_breaks(
    table: &Table,
    level: usize,
    task: usize,
    parent: usize,
    parents: &[u32],
    r: usize,
) -> bool
    ensures { result ≡ parent_breaks (seen table.now) level task parent (held_in parents.now) r }
{
    if level_of(table, r, level) == LEVEL_ONE {
        return table.is_given(r, parent);
    }
    let p = parent_in(parents, r);
    let itself = *table;
    p == 0 || !(table.is_given(r, parent) && table.same_in(r, parent, &itself, p - 1, task))
}

// Mark 79, the parents as given, where `parents` has the parent of each record.
#[tactic(auto, using(rule_cells::proofs::Laws::searching), unfolding(crate::specs::Outline::parent_rule, crate::specs::Outline::outline_at, crate::specs::Outline::parent_shown, rule_cells::specs::Cells::first_that, rule_cells::specs::Cells::integer_in, crate::specs::Outline::level_of))]
pub fn parent_rule(
    table: &Table,
    level: usize,
    task: usize,
    parent: usize,
    parents: &[u32],
) -> Outline
    ensures { result ≡ parent_rule (seen table.now) level task parent (held_in parents.now) }
{
    for r in 0..table.records {
        if parent_breaks(table, level, task, parent, parents, r) {
            return Outline {
                record: r + 1,
                parent: parent_shown(table, level, parents, r),
            };
        }
    }
    Outline {
        record: 0,
        parent: 0,
    }
}

// Whether task q has the TaskID of record p, and the type that a word names.
#[tactic(auto, unfolding(crate::specs::Outline::is_typed, rule_cells::specs::Cells::same_text, rule_cells::specs::Cells::text_of, rule_cells::specs::Cells::is_word))]
fn is_typed(
    table: &Table,
    p: usize,
    task: usize,
    tasks: &Table,
    id: usize,
    type_field: usize,
    word: &[u8],
    q: usize,
) -> bool
    ensures { result ≡ is_typed (seen table.now) p task (seen tasks.now) id type_field word.now q }
{
    table.same_in(p, task, tasks, q, id) && tasks.is_word(q, type_field, word)
}

// Whether some task has the TaskID of record p, and the type that a word names.
fn some_typed(
    table: &Table,
    p: usize,
    task: usize,
    tasks: &Table,
    id: usize,
    type_field: usize,
    word: &[u8],
) -> bool
    ensures { result ≡ some_of (is_typed (seen table.now) p task (seen tasks.now) id type_field word.now) tasks.now.records }
{
    for q in 0..tasks.records {
        if is_typed(table, p, task, tasks, id, type_field, word, q) {
            return true;
        }
    }
    false
}

// Whether record r breaks mark 80.
fn parent_type_breaks(
    table: &Table,
    level: usize,
    task: usize,
    parents: &[u32],
    tasks: &Table,
    id: usize,
    type_field: usize,
    word: &[u8],
    r: usize,
) -> bool
    ensures { result ≡ parent_type_breaks (seen table.now) level task (held_in parents.now) (seen tasks.now) id type_field word.now r }
{
    let p = parent_in(parents, r);
    level_of(table, r, level) != LEVEL_ONE
        && p != 0
        && !some_typed(table, p - 1, task, tasks, id, type_field, word)
}

// Mark 80, the types of the parents' tasks, where `parents` has the parent of each record.
#[tactic(auto, using(rule_cells::proofs::Laws::searching), unfolding(crate::specs::Outline::parent_type_rule, crate::specs::Outline::outline_at, crate::specs::Outline::parent_shown, rule_cells::specs::Cells::first_that, rule_cells::specs::Cells::integer_in, crate::specs::Outline::level_of))]
pub fn parent_type_rule(
    table: &Table,
    level: usize,
    task: usize,
    parents: &[u32],
    tasks: &Table,
    id: usize,
    type_field: usize,
    word: &[u8],
) -> Outline
    ensures { result ≡ parent_type_rule (seen table.now) level task (held_in parents.now) (seen tasks.now) id type_field word.now }
{
    for r in 0..table.records {
        if parent_type_breaks(table, level, task, parents, tasks, id, type_field, word, r) {
            return Outline {
                record: r + 1,
                parent: parent_shown(table, level, parents, r),
            };
        }
    }
    Outline {
        record: 0,
        parent: 0,
    }
}
