// A value that some record of another table must have too. A search of the other table, the one of targets, stops at
// the first record that has the value.
#![tactic(auto, using(crate::proofs::Laws::seeking, rule_cells::proofs::Laws::searching), unfolding(crate::specs::Target::target_rule, rule_cells::specs::Cells::first_that))]

ghost use Rattle.std.specs.Prelude.{◌≡◌};
ghost use Rattle.json_chars.specs.Chars.{chars_at};
ghost use Rattle.rule_cells.specs.Seen.{seen, cells_seen};
ghost use Rattle.rule_target.specs.Target.{target_of, breaks_target, target_rule};

use json_same::{Case, same_text};
use rule_cells::Table;
use rule_when::{When, holds_when};

// The columns of a target rule: field k of the first table, under a condition, in field m of the
// second.
#[derive(Clone, Copy)]
pub struct Target {
    pub k: usize,
    pub when: When,
    pub m: usize,
}

// The first record of the target table whose field m is the text at `at`, counted from 1; 0 for
// none.
pub fn target_of(s: &[u8], at: usize, targets: &Table, m: usize) -> usize
    ensures { result ≡ target_of (chars_at s.now at) (seen targets.now) m }
{
    for q in 0..targets.records {
        if same_text(s, at, targets.text, targets.start_of(q, m), Case::Folded) {
            return q + 1;
        }
    }
    0
}

#[tactic(auto, unfolding(crate::specs::Target::breaks_target, rule_cells::specs::Cells::text_of))]
fn breaks_target(
    table: &Table,
    r: usize,
    t: Target,
    targets: &Table,
    places: &[u32],
    texts: &[u8],
) -> bool
    ensures { result ≡ breaks_target (cells_seen table.now) t.k t.when (seen targets.now) t.m places.now texts.now r }
{
    table.is_given(r, t.k)
        && holds_when(table, r, t.when, places, texts)
        && target_of(table.text, table.start_of(r, t.k), targets, t.m) == 0
}

// The first record whose value no target record has, counted from 1; 0 where there is none.
pub fn target_rule(table: &Table, t: Target, targets: &Table, places: &[u32], texts: &[u8]) -> usize
    ensures { result ≡ target_rule (seen table.now) t.k t.when (seen targets.now) t.m places.now texts.now }
{
    for r in 0..table.records {
        if breaks_target(table, r, t, targets, places, texts) {
            return r + 1;
        }
    }
    0
}
