// A text, or two of one record, looked up in an order of a table's records: by the first one's sum, and
// where sums are equal by the texts, in some log n steps.
#![tactic(auto, unfolding(crate::specs::Lookup::has_texts, crate::specs::Lookup::second_parts, crate::specs::Lookup::second_order, crate::specs::Lookup::stands_before, crate::specs::Lookup::key_place, crate::specs::Lookup::is_found, key_order::specs::Order::and_then, key_sum::specs::Sum::key_sum, text_order::specs::Order::order_of, text_order::specs::Order::may_precede, text_order::specs::Order::text_order, rule_cells::specs::Cells::text_of,))]

ghost use Rattle.std.specs.Prelude.{◌≡◌, true, false, not, MatchOption};
ghost use Rattle.json_chars.specs.Chars.{chars_at};
ghost use Rattle.rule_cells.specs.Seen.{cells_seen};
ghost use Rattle.number_search.specs.Search.{searched};
ghost use Rattle.text_order.specs.Order.{may_precede};
ghost use Rattle.key_lookup.specs.Lookup.{key_of, has_texts, second_order, stands_before, is_found};

use json_same::{Case, same_text};
use key_order::sum_at;
use key_sum::key_sum;
use rule_cells::Table;
use rule_key::Key;
use text_order::{Compared, text_order};

// What is looked up: a text in field m and, where the kind is 1, in field k of the same record the text
// at `also`, which stands in the table that is searched.
// What may not change: `key_of` hands on every kind, so that an Option of the second text would ask more.
#[derive(Clone, Copy)]
pub struct Lookup {
    pub m: usize,
    pub k: usize,
    pub kind: u32,
    pub also: usize,
}

// The key by which the records have to be in order.
pub fn key_of(l: Lookup) -> Key
    ensures { result ≡ key_of l }
{
    Key {
        a: l.m,
        a_kind: 1,
        b: l.k,
        b_kind: l.kind,
        c: 0,
        c_kind: 0,
    }
}

// A table, what is looked up in it, the sums of its records' first texts, and its records in the order of
// the key.
#[derive(Clone, Copy)]
pub struct Index<'a> {
    pub table: Table<'a>,
    pub lookup: Lookup,
    pub sums: &'a [u32],
    pub order: &'a [u32],
}

impl Index<'_> {
    // Whether the second text stands behind that of record q; not where none is looked up.
    fn is_second_more(&self, q: u32) -> bool
        ensures { result ≡ not (may_precede (second_order (cells_seen self.now.table) self.now.lookup q)) }
    {
        let l = self.lookup;
        let u = self.table.text;
        l.kind == 1
            && matches!(
                text_order(u, l.also, u, self.table.start_of(q as usize, l.k)),
                Compared::More
            )
    }

    // Whether record q stands before what is looked up: the text at `at`, which has this sum, and the second
    // one. Texts are compared only where sums are equal.
    fn is_before(&self, s: &[u8], at: usize, sum: u32, q: u32) -> bool
        ensures { result ≡ stands_before (cells_seen self.now.table) self.now.lookup self.now.sums.now sum (chars_at s.now at) q }
    {
        let other = sum_at(self.sums, q);
        if sum != other {
            return other < sum;
        }
        match text_order(
            s,
            at,
            self.table.text,
            self.table.start_of(q as usize, self.lookup.m),
        ) {
            Compared::Less => false,
            Compared::Same => self.is_second_more(q),
            Compared::More => true,
        }
    }

    // Its place among the records in order, by halving.
    // What may not change: `place_of` says where halving ends in any list, and partition_point says it only
    // of one that is in order.
    pub fn place_of(&self, s: &[u8], at: usize, sum: u32) -> usize
        ensures { result ≡ searched (stands_before (cells_seen self.now.table) self.now.lookup self.now.sums.now sum (chars_at s.now at)) self.now.order.now }
    {
        let order = self.order;
        let mut lo = 0;
        let mut hi = order.len();
        while lo < hi {
            let middle = lo + (hi - lo) / 2;
            if self.is_before(s, at, sum, order[middle]) {
                lo = middle + 1;
            } else {
                hi = middle;
            }
        }
        lo
    }

    // Whether record q has the text, and the second one where it is looked up.
    fn has_texts(&self, s: &[u8], at: usize, q: u32) -> bool
        ensures { result ≡ has_texts (cells_seen self.now.table) self.now.lookup (chars_at s.now at) q }
    {
        let l = self.lookup;
        let u = self.table.text;
        let first = self.table.start_of(q as usize, l.m);
        same_text(s, at, u, first, Case::Folded)
            && (l.kind != 1
                || same_text(
                    u,
                    l.also,
                    u,
                    self.table.start_of(q as usize, l.k),
                    Case::Folded,
                ))
    }

    // The record at the place of what is looked up, if it has it.
    pub fn find(&self, s: &[u8], at: usize) -> Option<usize>
        ensures { MatchOption result (is_found (cells_seen self.now.table) self.now.lookup self.now.sums.now self.now.order.now (chars_at s.now at) ≡ false) (λ q. (is_found (cells_seen self.now.table) self.now.lookup self.now.sums.now self.now.order.now (chars_at s.now at) ≡ true) × (has_texts (cells_seen self.now.table) self.now.lookup (chars_at s.now at) q ≡ true)) }
    {
        let i = self.place_of(s, at, key_sum(s, at));
        if self.order.len() <= i {
            return None;
        }
        let q = self.order[i];
        if self.has_texts(s, at, q) {
            Some(q as usize)
        } else {
            None
        }
    }

    // Whether the record at the place of what is looked up has it.
    pub fn is_found(&self, s: &[u8], at: usize) -> bool
        ensures { result ≡ is_found (cells_seen self.now.table) self.now.lookup self.now.sums.now self.now.order.now (chars_at s.now at) }
    {
        self.find(s, at).is_some()
    }
}
