// A rule judged by plain search alone: keys, targets and the parents' types by the functions that compare
// each record with all others, every other rule as it is. It answers what `rules` answers through an
// order of the records.
// No generic one with `rules`: here stand only the four arms that search plainly, and `rule_break` does all others; a trait of three searches with laws and two types for it would be more lines than these arms.
#![tactic(auto)]

ghost use Rattle.std.specs.Prelude.{◌≡◌};
ghost use Rattle.rule_cells.specs.Cells.{table};
ghost use Rattle.rule_cells.specs.Seen.{seen};
ghost use Rattle.rule_key.specs.Key.{key_rule};
ghost use Rattle.rule_outline.specs.Outline.{parent_type_rule, parent_of};
ghost use Rattle.rule_shape.specs.Rule.{rule_from};
ghost use Rattle.rule_target.specs.Target.{target_rule};
ghost use Rattle.rules.specs.Judge.{alone, of_key, of_outline, parent_break, rule_break};

use parts::part;
use rule_cells::Table;
use rule_key::{Key, key_rule};
use rule_outline::{fill_parents, parent_type_rule};
use rule_shape::{Rule, rule_at};
use rule_target::{Target, target_rule};
use rule_when::When;
use rules::{Break, rule_break};
use table_rows::{value_end, value_start};

fn key_plain(judged: &Table, key: Key) -> Break
    ensures { result ≡ of_key (key_rule (seen judged.now) key) }
{
    let found = key_rule(judged, key);
    Break {
        record: found.record,
        other: found.same,
    }
}

// A value, in a record that meets the condition, that no record of the targets has as its `id`.
fn target_plain(
    judged: &Table,
    field: usize,
    when: When,
    targets: &Table,
    id: usize,
    places: &[u32],
    texts: &[u8],
) -> Break
    ensures { result ≡ alone (target_rule (seen judged.now) field when (seen targets.now) id places.now texts.now) }
{
    let asked = Target {
        k: field,
        when,
        m: id,
    };
    let record = target_rule(judged, asked, targets, places, texts);
    Break { record, other: 0 }
}

// Mark 80's rule. The parents are found once for all records and kept while the rule looks at them.
fn parent_type_plain(
    outline: &Table,
    level: usize,
    id: usize,
    tasks: &Table,
    task_id: usize,
    task_type: usize,
    word: &[u8],
) -> Break
    ensures { result ≡ parent_break (seen outline.now) (parent_type_rule (seen outline.now) level id (parent_of (seen outline.now) level) (seen tasks.now) task_id task_type word.now) }
{
    let mut parents = [0u32; 4096];
    if fill_parents(outline, level, &mut parents) {
        let found = parent_type_rule(
            outline, level, id, &parents, tasks, task_id, task_type, word,
        );
        return Break {
            record: found.record,
            other: found.parent,
        };
    }
    Break {
        record: 0,
        other: 0,
    }
}

// Rule i of the rows over the table that it judges and the table `u` that it looks into.
pub fn plain_break(
    rows: &[u32],
    i: usize,
    s: &[u8],
    cells: &[u32],
    width: usize,
    records: usize,
    u: &[u8],
    u_cells: &[u32],
    u_width: usize,
    u_records: usize,
    places: &[u32],
    texts: &[u8],
) -> Break
    ensures { result ≡ rule_break places.now texts.now (rule_from rows.now i) (table s.now cells.now width records) (table u.now u_cells.now u_width u_records) }
{
    let judged = Table {
        text: s,
        cells,
        width,
        records,
    };
    let others = Table {
        text: u,
        cells: u_cells,
        width: u_width,
        records: u_records,
    };
    let rule = rule_at(rows, i);
    match rule {
        Rule::KeyOf { key, .. } => key_plain(&judged, key),
        Rule::TargetIn {
            field,
            when,
            id,
            ..
        } => target_plain(&judged, field, when, &others, id, places, texts),
        Rule::EachHas {
            field,
            when,
            id,
            ..
        } => target_plain(&judged, field, when, &others, id, places, texts),
        Rule::ParentIs {
            level,
            id,
            other_id,
            other_type,
            value,
            ..
        } => {
            let word = part(texts, value_start(places, value), value_end(places, value));
            parent_type_plain(&judged, level, id, &others, other_id, other_type, word)
        }
        _ => rule_break(
            rows, i, s, cells, width, records, u, u_cells, u_width, u_records, places, texts,
        ),
    }
}
