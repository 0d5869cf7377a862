// The rule "primary key" judged through an order of the records: equal keys stand beside each other in
// it, so that each record is compared with one other. It is an order by sums first, made of each ID that
// a key starts with: keys of different sums are not compared. Records whose keys ascend, or that come in
// groups of one second ID, need none of this: each is asked by itself, so that who asks it first makes no
// lists for them.
#![tactic(auto, unfolding(crate::specs::Sums::key_sum_of, crate::specs::Repeat::same_sum_and_key, crate::specs::Repeat::lesser, crate::specs::Repeat::repeat_of, crate::specs::Repeat::break_at, crate::specs::Ascending::is_not_less, crate::specs::Ascending::no_rise, crate::specs::Grouped::apart, key_order::specs::Order::and_then, key_order::specs::Order::field_parts, key_order::specs::Order::field_order, key_order::specs::Order::key_order, key_order::specs::Order::field_sum, key_order::specs::Compare::others_order, text_order::specs::Order::text_order, rule_cells::specs::Cells::text_of,))]

ghost use Rattle.std.specs.Prelude.{◌≡◌, ◌+◌, ◌<◌, ◌≤◌, length};
ghost use Rattle.rule_cells.specs.Seen.{seen, cells_seen};
ghost use Rattle.rule_key.specs.Key.{same_key, key_rule};
ghost use Rattle.key_order.specs.Order.{key_order};
ghost use Rattle.ordered_key.specs.Sums.{key_sum_of, key_sums};
ghost use Rattle.ordered_key.specs.Repeat.{same_sum_and_key, lesser, repeat_of, least_repeat, break_at};
ghost use Rattle.ordered_key.specs.Ascending.{ascending};
ghost use Rattle.ordered_key.specs.Grouped.{apart, grouped};

use key_order::{compare_keys, compare_others, order_by_sums, sum_at};
use key_sum::{key_sum, sum_with};
use rule_cells::Table;
use rule_key::{Key, KeyBreak, earliest_same, key_rule, same_key};
use text_order::{Compared, text_order};

// The lesser of two records, both counted from 1; 0 stands for none.
// What may not change: `key_rule` and its KeyBreak, which this makes, count so.
fn lesser(a: usize, b: usize) -> usize
    ensures { result ≡ lesser a b }
{
    match (a, b) {
        (0, _) => b,
        (_, 0) => a,
        _ => a.min(b),
    }
}

// Record r, counted from 1, if it has the sum and the key of record p; 0 if not. The sums decide first,
// so that keys are compared only where their sums are equal.
fn repeat_of(table: &Table, key: Key, sums: &[u32], p: u32, r: u32) -> usize
    ensures { result ≡ repeat_of (same_sum_and_key (cells_seen table.now) key sums.now) p r }
{
    let record = r as usize;
    if sum_at(sums, p) == sum_at(sums, r) && same_key(table, key, p as usize, record) {
        record + 1
    } else {
        0
    }
}

// Of the records in a list, the least that has the sum and the key of the one just before it, counted
// from 1; 0 for none.
fn first_repeat(table: &Table, key: Key, sums: &[u32], order: &[u32]) -> usize
    ensures { result ≡ least_repeat (same_sum_and_key (cells_seen table.now) key sums.now) order.now }
{
    let mut least = 0;
    for i in 1..order.len() {
        let found = repeat_of(table, key, sums, order[i - 1], order[i]);
        least = lesser(least, found);
    }
    least
}

// What the rule answers, read from an order of the records: only for the record that breaks it is the
// earliest with its key searched.
fn order_break(table: &Table, key: Key, sums: &[u32], order: &[u32]) -> KeyBreak
    ensures { result ≡ break_at (cells_seen table.now) key (least_repeat (same_sum_and_key (cells_seen table.now) key sums.now) order.now) }
{
    let first = first_repeat(table, key, sums, order);
    if first == 0 {
        KeyBreak { record: 0, same: 0 }
    } else {
        KeyBreak {
            record: first,
            same: earliest_same(table, key, first - 1),
        }
    }
}

// The key of record i beside that of record j. Most keys start with an ID: the two texts are then compared
// at once, with no way through the kinds that a field can be of.
fn compare_ids_first(table: &Table, key: Key, i: usize, j: usize) -> Compared
    ensures { result ≡ key_order (cells_seen table.now) key i j }
{
    if key.a_kind != 1 {
        return compare_keys(table, key, i, j);
    }
    let first = table.start_of(i, key.a);
    match text_order(table.text, first, table.text, table.start_of(j, key.a)) {
        Compared::Same => compare_others(table, key, i, j),
        other => other,
    }
}

// Whether each record's key is less than the next one's. Many tables come so, and then no key is there
// twice: asked before `key_rule_in`, it spares them the lists.
pub fn is_ascending(table: &Table, key: Key) -> bool
    ensures { result ≡ ascending (key_order (cells_seen table.now) key) table.now.records }
{
    for i in 1..table.records {
        match compare_ids_first(table, key, i - 1, i) {
            Compared::Less => {}
            _ => return false,
        }
    }
    true
}

// Whether record i has another key than each record from `from` on before it. Of a long group nothing is
// told: it would take too many comparisons.
fn is_apart(table: &Table, key: Key, from: usize, i: usize) -> bool
    requires { from ≤ i }
    ensures { result ≡ apart (same_key (cells_seen table.now) key) from i }
{
    if 8 < i - from {
        return false;
    }
    for j in from..i {
        if same_key(table, key, j, i) {
            return false;
        }
    }
    true
}

// Whether the key's second field is an ID that never falls from one record to the next, and among the
// records that share one no key is there twice: then none is at all. Where links are listed by their
// successor, or assignments by their task, and the keys do not ascend, this spares them the lists.
pub fn is_grouped(table: &Table, key: Key) -> bool
    ensures { result ≡ grouped (cells_seen table.now) key table.now.records }
{
    if key.b_kind != 1 {
        return false;
    }
    let mut from = 0;
    for i in 1..table.records {
        let before = table.start_of(i - 1, key.b);
        match text_order(table.text, before, table.text, table.start_of(i, key.b)) {
            Compared::Less => from = i,
            Compared::Same if is_apart(table, key, from, i) => {}
            _ => return false,
        }
    }
    true
}

// The sum of record i's key: of its first field, and where the second is an ID too of both. In a table
// whose records share the first ID, as the assignments of one resource do, few then have one sum.
fn key_sum_of(table: &Table, key: Key, i: usize) -> u32
    ensures { result ≡ key_sum_of (cells_seen table.now) key i }
{
    let first = key_sum(table.text, table.start_of(i, key.a));
    if key.b_kind == 1 {
        sum_with(first, key_sum(table.text, table.start_of(i, key.b)))
    } else {
        first
    }
}

// Puts down the sum of each record's key.
fn fill_key_sums(table: &Table, key: Key, sums: &mut [u32])
    ensures { sums.new ≡ key_sums (cells_seen table.now) key (length sums.old) }
{
    for (i, sum) in sums.iter_mut().enumerate() {
        *sum = key_sum_of(table, key, i);
    }
}

// The first record whose key equals an earlier one's, through an order of the records in the lent
// lists. Where the lists are not as long as there are records, or the key's first field is no ID, every
// record is compared with every other.
pub fn key_rule_in(
    table: &Table,
    key: Key,
    sums: &mut [u32],
    order: &mut [u32],
    scratch: &mut [u32],
) -> KeyBreak
    ensures { result ≡ key_rule (seen table.now) key }
{
    if key.a_kind == 1 && order.len() == table.records {
        fill_key_sums(table, key, sums);
        if order_by_sums(table, key, sums, order, scratch) {
            return order_break(table, key, sums, order);
        }
    }
    key_rule(table, key)
}
