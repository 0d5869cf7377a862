// The field that decides a rule which a record breaks, and the table that it searched in vain.
#![tactic(auto)]

ghost use Rattle.std.specs.Prelude.{◌≡◌};
ghost use Rattle.rule_cells.specs.Cells.{table};
ghost use Rattle.rule_shape.specs.Rule.{rule_from};
ghost use Rattle.rule_reason.specs.Reason.{deciding_field, searched_in};

use rule_cells::Table;
use rule_hours::{first_below, first_given, first_null};
use rule_shape::{Rule, rule_at};

// The file that a rule looks into for a target, where it is one of "targets".
#[derive(Clone, Copy)]
pub enum Searched {
    In { file: usize },
    Nowhere,
}

// The deciding field of rule i of the rows, where record r, counted from 0, breaks it; counted within
// the table.
pub fn deciding_field(
    rows: &[u32],
    i: usize,
    s: &[u8],
    cells: &[u32],
    width: usize,
    r: usize,
) -> usize
    ensures { result ≡ deciding_field (rule_from rows.now i) (table s.now cells.now width 0) r }
{
    let table = Table {
        text: s,
        cells,
        width,
        records: 0,
    };
    let rule = rule_at(rows, i);
    match rule {
        Rule::KeyOf { key, .. } => key.a,
        Rule::OneOf { field, .. } => field,
        Rule::NullUnless { field, .. } => field,
        Rule::GivenIf { field, .. } => field,
        Rule::GivenUnless { field, .. } => field,
        Rule::NoneBelow { from, to, .. } => first_below(&table, r, from, to),
        Rule::SomeAbove { from, .. } => from,
        Rule::Together { from, to, .. } => first_null(&table, r, from, to),
        Rule::LevelRun { level, .. } => level,
        Rule::ParentGiven { parent, .. } => parent,
        Rule::AllGiven { from, to, .. } => first_null(&table, r, from, to),
        Rule::NoneGiven { from, to, .. } => first_given(&table, r, from, to),
        Rule::InOrder { first, .. } => first,
        Rule::TreeLevels { level, .. } => level,
        Rule::TreeParent { parent, .. } => parent,
        Rule::TargetIn { field, .. } => field,
        Rule::ParentIs { parent, .. } => parent,
        Rule::LeafIn { field, .. } => field,
        Rule::EachHas { field, .. } => field,
    }
}

// The table that rule i of the rows searches for a target.
pub fn searched_in(rows: &[u32], i: usize) -> Searched
    ensures { result ≡ searched_in (rule_from rows.now i) }
{
    let rule = rule_at(rows, i);
    match rule {
        Rule::TargetIn { other, .. } => Searched::In { file: other },
        _ => Searched::Nowhere,
    }
}
