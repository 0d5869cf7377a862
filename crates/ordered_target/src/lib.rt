// A value that some record of another table must have too. Tables mostly name their targets one after the
// other, so the record behind the target found last is tried first, then that one again, and then those
// around it. Only where none of them is it, each target record is put into a list of slots, near a place that its
// text tells, and from there on a value is looked for in the slots near its own place. Before that it is only seen
// whether the record behind the last one or that one has the same bytes: where targets come in no order, the other
// tries would mostly be in vain.
// Slots only guess: a record that stands there is compared, and one that does not may still be a target, as where
// too many have one place. So what they don't answer, which mostly is a value that no target record has, takes the
// dearest way: the target records are put in order, and the value is looked up there, as are all behind it.
#![tactic(auto)]

ghost use Rattle.std.specs.Prelude.{◌≡◌, ◌+◌, ◌-◌, ◌*◌, ◌<◌, ◌≤◌, true, false, length, drop, if◌then◌else◌, ◌==◌, nat_lt, OnSome, MatchOption};
ghost use Rattle.json_bytes.specs.Reads.{byte_at};
ghost use Rattle.json_chars.specs.Chars.{chars_at};
ghost use Rattle.rule_cells.specs.Cells.{start_of, first_from};
ghost use Rattle.rule_cells.specs.Seen.{seen, cells_seen};
ghost use Rattle.rule_target.specs.Target.{target_of, breaks_target, target_rule};
ghost use Rattle.key_order.specs.Order.{sums_of, in_key_order, are_fit};
ghost use Rattle.key_lookup.specs.Lookup.{key_of};
ghost use Rattle.ordered_target.specs.Found.{one_text};

use json_bytes::{byte_at, eight_at};
use json_chars::{Step, step_at};
use json_same::{Case, same_text};
use json_text::plain_end;
use key_lookup::{Index, Lookup, key_of};
use key_order::key_order;
use key_sum::{beginning_of, key_sum};
use rule_cells::Table;
use rule_target::{Target, target_rule};
use rule_when::holds_when;
use table_name::same_bytes;

// Where the value of field k of record r ends: that cell stands behind the one of its start, so it is read
// as a start from the cells behind the first.
fn end_of(table: &Table, r: usize, k: usize) -> usize
    ensures { result ≡ start_of (drop 1 table.now.cells.now) table.now.width r k }
{
    if 0 < table.cells.len() {
        let behind = Table {
            text: table.text,
            cells: &table.cells[1..],
            width: table.width,
            records: table.records,
        };
        return behind.start_of(r, k);
    }
    0
}

// The last two bytes of a text whose closing quote stands before `end`, as one number; 0 where there are none.
fn tail_before(s: &[u8], end: usize) -> u32
    ensures { result ≡ (if nat_lt end 3 then 0 else byte_at s.now (end - 3) * 256 + byte_at s.now (end - 2)) }
{
    if end < 3 {
        return 0;
    }
    (byte_at(s, end - 3) as u32) * 256 + (byte_at(s, end - 2) as u32)
}

// A text in field m alone.
fn one_text(m: usize) -> Lookup
    ensures { result ≡ one_text m }
{
    Lookup {
        m,
        k: 0,
        kind: 0,
        also: 0,
    }
}

// ---- Slots
// Nothing is stated of a slot but that there is one of its number: where a text stands matters to no answer.

// Whether the value from `at` up to `end` has one to eight bytes between its quotes, with no backslash among the eight
// bytes before the closing quote and none from 80 on: then these bytes are its characters.
fn is_short(s: &[u8], at: usize, end: usize) -> bool
    ensures { result ≡ true → (at + 3 ≤ end) × (9 ≤ end) × (end ≤ length s.now) }
{
    if end < 9 || s.len() < end || end - 3 < at || 10 < end - at {
        return false;
    }
    let x = eight_at(s, end - 9);
    let other = std::num::wrapping_add_u64(x ^ 0x5c5c5c5c5c5c5c5c, 0x7f7f7f7f7f7f7f7f);
    (other & (x ^ 0x8080808080808080)) & 0x8080808080808080 == 0x8080808080808080
}

// A slot for up to eight characters, one byte each. The bit in which letters of either case differ is set in all, since IDs
// are the same in either; the two products spread what is left.
fn slot_of(x: u64) -> usize
    ensures { result < 8192 }
{
    let y = x | 0x2020202020202020;
    let low = y % 4294967296 * 2654435769;
    let high = y / 4294967296 % 4294967296 * 2246822519;
    ((low ^ high) / 65536 % 8192) as usize
}

// The last n of the eight bytes of a number, which are its highest.
fn last_of(x: u64, n: usize) -> u64 {
    if 8 <= n { x } else { x >> ((8 - n) * 8 % 64) }
}

// The slot of a text, character by character: of up to eight the one that they have where they are written plainly, and of
// more one by their sum.
fn decoded_slot(s: &[u8], at: usize) -> usize
    ensures { result < 8192 }
{
    let mut x: u64 = 0;
    let mut i = beginning_of(s, at);
    for n in 0..8 {
        let Step::Char { code, next } = step_at(s, i) else {
            return slot_of(last_of(x, n));
        };
        x = x / 256 % 72057594037927936 + (code % 256) as u64 * 72057594037927936;
        i = next;
    }
    match step_at(s, i) {
        Step::Char { .. } => (key_sum(s, at) % 8192) as usize,
        _ => slot_of(x),
    }
}

// The first of the 32 slots in which the text from `at` up to `end` may stand. It is one of 8,192, twice as many as a table
// has records, and a list of slots has 32 more, for those that begin at the last. Most IDs are short and plain, and are
// read at once.
fn home_of(s: &[u8], at: usize, end: usize) -> usize
    ensures { result < 8192 }
{
    if is_short(s, at, end) {
        slot_of(last_of(eight_at(s, end - 9), end - at - 2))
    } else {
        decoded_slot(s, at)
    }
}

// Puts a number into the first of 32 slots that is free. Where none is, it is left out, and the slots don't find its
// record. With fewer of them that happens in a table that is nearly full, which then is put in order all the same.
fn put_slot(slots: &mut [u16], home: usize, x: u16)
    requires { home < 8192 }
    ensures { length slots.new ≡ length slots.old }
{
    let end = slots.len().min(home + 32);
    for i in home..end {
        if slots[i] == 0 {
            slots[i] = x;
            return;
        }
    }
}

// Puts each target record into a slot of its text, counted from 1: a slot that is 0 is free.
fn fill_slots(targets: &Table, m: usize, slots: &mut [u16])
    requires { targets.now.records ≤ 4096 }
    ensures { length slots.new ≡ length slots.old }
{
    for q in 0..targets.records {
        let home = home_of(targets.text, targets.start_of(q, m), end_of(targets, q, m));
        put_slot(slots, home, (q + 1) as u16);
    }
}

// What the rule is asked of: the records, what each must name, the table of its targets, and what tells whether it is
// asked for.
#[derive(Clone, Copy)]
struct Asked<'a> {
    table: Table<'a>,
    target: Target,
    targets: Table<'a>,
    places: &'a [u32],
    texts: &'a [u8],
}

impl Asked<'_> {
    // Whether record q of the target table is seen, by its bytes alone, to have the text from `at` up to `end`: the
    // same bytes stand where its value starts, and they begin with a string in which each byte is a character by itself. So
    // no character is decoded or folded, and where its value ends is not asked. Of bytes that are no whole string the same
    // ones would tell nothing: the text would go on behind them.
    fn is_copy(&self, at: usize, end: usize, q: usize) -> bool
        ensures { result ≡ true → (target_of (chars_at self.now.table.text.now at) (seen self.now.targets) self.now.target.m == 0) ≡ false }
    {
        let s = self.table.text;
        let u = self.targets.text;
        if self.targets.records <= q || s.len() < end || end < at {
            return false;
        }
        let n = end - at;
        let start = self.targets.start_of(q, self.target.m);
        if u.len() < n || u.len() - n < start {
            return false;
        }
        let text = &s[at..end];
        same_bytes(text, &u[start..start + n]) && 0 < plain_end(text, 0)
    }

    // Tries whether the record behind the one that was found last has the same bytes, and then that one. Most do where
    // targets are named one after the other, and many where records come in groups.
    fn guess_copy(&self, at: usize, end: usize, near: usize) -> Option<usize>
        ensures { OnSome result ((target_of (chars_at self.now.table.text.now at) (seen self.now.targets) self.now.target.m == 0) ≡ false) }
    {
        if self.targets.records <= near {
            return None;
        }
        for behind in (0..2).rev() {
            let q = near + behind;
            if self.is_copy(at, end, q) {
                return Some(q);
            }
        }
        None
    }

    // Whether record q of the target table is seen to have the text at `at`.
    fn has_text(&self, s: &[u8], at: usize, q: usize) -> bool
        ensures { result ≡ true → (target_of (chars_at s.now at) (seen self.now.targets) self.now.target.m == 0) ≡ false }
    {
        if q < self.targets.records {
            let u = self.targets.text;
            let start = self.targets.start_of(q, self.target.m);
            return same_text(s, at, u, start, Case::Folded);
        }
        false
    }

    // Whether record q of the target table is seen to have the text at `at`, whose last two bytes are `tail`. IDs
    // mostly differ in their last digits, and many go by tens, so a text that ends in other bytes isn't read at all; if
    // only case or an escape tells the two apart, the value is looked up.
    fn is_target(&self, at: usize, tail: u32, q: usize) -> bool
        ensures { result ≡ true → (target_of (chars_at self.now.table.text.now at) (seen self.now.targets) self.now.target.m == 0) ≡ false }
    {
        tail == tail_before(self.targets.text, end_of(&self.targets, q, self.target.m))
            && self.has_text(self.table.text, at, q)
    }

    // Tries the record behind the one that was found last, and then that one.
    fn guess_next(&self, at: usize, tail: u32, near: usize) -> Option<usize>
        ensures { OnSome result ((target_of (chars_at self.now.table.text.now at) (seen self.now.targets) self.now.target.m == 0) ≡ false) }
    {
        if near < self.targets.records && self.is_target(at, tail, near + 1) {
            Some(near + 1)
        } else if self.is_target(at, tail, near) {
            Some(near)
        } else {
            None
        }
    }

    // Tries the records around the one that was found last, from the third behind it to the fourth before it.
    fn guess_around(&self, at: usize, tail: u32, near: usize) -> Option<usize>
        ensures { OnSome result ((target_of (chars_at self.now.table.text.now at) (seen self.now.targets) self.now.target.m == 0) ≡ false) }
    {
        if 4096 < near {
            return None;
        }
        for q in (near.saturating_sub(4)..near + 4).rev() {
            if self.is_target(at, tail, q) {
                return Some(q);
            }
        }
        None
    }

    // Tries the records that stand in the slots of a text, up to the first slot that is free.
    fn guess_slot(&self, at: usize, till: usize, slots: &[u16]) -> Option<usize>
        ensures { OnSome result ((target_of (chars_at self.now.table.text.now at) (seen self.now.targets) self.now.target.m == 0) ≡ false) }
    {
        let s = self.table.text;
        let home = home_of(s, at, till);
        let end = slots.len().min(home + 32);
        for i in home..end {
            let x = slots[i] as usize;
            if x == 0 {
                return None;
            }
            let q = x - 1;
            if self.has_text(s, at, q) {
                return Some(q);
            }
        }
        None
    }

    // Whether record r is seen to hold: it has no value, its target is not asked for, or it is guessed. One that is
    // copied is the cheapest to see and holds whether or not it is asked for, so it is tried before that is. Where there
    // are slots, it is looked for in them at once: what `guess_next` and `guess_around` try would mostly be in vain.
    // Where the lists have the order of the target records, as `ordered` says, one that `guess_next` doesn't find is
    // looked up there, and a record that is not seen to hold breaks the rule. Slots are then not asked, since what they
    // don't find may still be a target. Told is near which target record the next one is tried.
    // What may not change: the edit `slots_where_an_order_decides` needs slots and an order side by side, told apart by
    // `ordered`; an enum of the two would leave it nothing to turn.
    fn find_record(
        &self,
        r: usize,
        sums: &[u32],
        order: &[u32],
        slots: &[u16],
        near: usize,
        ordered: bool,
    ) -> Option<usize>
        requires { ordered ≡ true → (sums.now ≡ sums_of (cells_seen self.now.targets) self.now.target.m self.now.targets.records) × (order.now ≡ in_key_order (cells_seen self.now.targets) (key_of (one_text self.now.target.m)) self.now.targets.records) }
        ensures { MatchOption result (ordered ≡ true → breaks_target (cells_seen self.now.table) self.now.target.k self.now.target.when (seen self.now.targets) self.now.target.m self.now.places.now self.now.texts.now r ≡ true) (λ _. breaks_target (cells_seen self.now.table) self.now.target.k self.now.target.when (seen self.now.targets) self.now.target.m self.now.places.now self.now.texts.now r ≡ false) }
    {
        let t = self.table;
        let k = self.target.k;
        if !t.is_given(r, k) {
            return Some(near);
        }
        let at = t.start_of(r, k);
        let end = end_of(&self.table, r, k);
        if let Some(q) = self.guess_copy(at, end, near) {
            return Some(q);
        }
        if !holds_when(&self.table, r, self.target.when, self.places, self.texts) {
            return Some(near);
        }
        if !ordered && 0 < slots.len() {
            return self.guess_slot(at, end, slots);
        }
        let tail = tail_before(t.text, end);
        if let Some(q) = self.guess_next(at, tail, near) {
            return Some(q);
        }
        if ordered {
            let index = Index {
                table: self.targets,
                lookup: one_text(self.target.m),
                sums,
                order,
            };
            return index.find(t.text, at);
        }
        self.guess_around(at, tail, near)
    }

    // Walks on from a record to the first one that is not seen to hold: none before it breaks the rule.
    fn first_unfound(
        &self,
        sums: &[u32],
        order: &[u32],
        slots: &[u16],
        from: usize,
        ordered: bool,
    ) -> usize
        requires { ordered ≡ true → (sums.now ≡ sums_of (cells_seen self.now.targets) self.now.target.m self.now.targets.records) × (order.now ≡ in_key_order (cells_seen self.now.targets) (key_of (one_text self.now.target.m)) self.now.targets.records) }
        ensures first_kept { first_from (breaks_target (cells_seen self.now.table) self.now.target.k self.now.target.when (seen self.now.targets) self.now.target.m self.now.places.now self.now.texts.now) (self.now.table.records - from) from ≡ first_from (breaks_target (cells_seen self.now.table) self.now.target.k self.now.target.when (seen self.now.targets) self.now.target.m self.now.places.now self.now.texts.now) (self.now.table.records - result) result }
        ensures result_breaks { ordered ≡ true → result < self.now.table.records → breaks_target (cells_seen self.now.table) self.now.target.k self.now.target.when (seen self.now.targets) self.now.target.m self.now.places.now self.now.texts.now result ≡ true }
    {
        let mut near = 0;
        for r in from..self.table.records {
            let Some(q) = self.find_record(r, sums, order, slots, near, ordered) else {
                return r;
            };
            near = q;
        }
        self.table.records
    }

    // From a record on, the first one that breaks the rule, counted from 1; 0 where there is none. The target records
    // are put in order in the lent lists.
    fn unfound_in_order(
        &self,
        sums: &mut [u32],
        order: &mut [u32],
        scratch: &mut [u32],
        from: usize,
    ) -> usize
        requires { (are_fit sums.old order.old scratch.old ≡ true) × (length order.old ≡ self.now.targets.records) }
        ensures { result ≡ first_from (breaks_target (cells_seen self.now.table) self.now.target.k self.now.target.when (seen self.now.targets) self.now.target.m self.now.places.now self.now.texts.now) (self.now.table.records - from) from }
    {
        key_order(
            &self.targets,
            key_of(one_text(self.target.m)),
            sums,
            order,
            scratch,
        );
        let free = [0u16; 0];
        let r = self.first_unfound(sums, order, &free, from, true);
        if r < self.table.records {
            return r + 1;
        }
        0
    }

    // The same in lists of its own.
    // Project rule: no heap, so lists as long as a table can be.
    fn unfound_from(&self, from: usize) -> usize
        requires { self.now.targets.records ≤ 4096 }
        ensures { result ≡ first_from (breaks_target (cells_seen self.now.table) self.now.target.k self.now.target.when (seen self.now.targets) self.now.target.m self.now.places.now self.now.texts.now) (self.now.table.records - from) from }
    {
        let n = self.targets.records;
        let mut sums = [0u32; 4096];
        let mut order = [0u32; 4096];
        let mut scratch = [0u32; 4096];
        self.unfound_in_order(&mut sums[..n], &mut order[..n], &mut scratch[..n], from)
    }

    // Walks on from a record to the first one whose target the slots don't find: none before it breaks the rule. The
    // target records are put into the lent slots, which are free.
    fn unslotted_in(&self, slots: &mut [u16], from: usize) -> usize
        requires { self.now.targets.records ≤ 4096 }
        ensures { first_from (breaks_target (cells_seen self.now.table) self.now.target.k self.now.target.when (seen self.now.targets) self.now.target.m self.now.places.now self.now.texts.now) (self.now.table.records - from) from ≡ first_from (breaks_target (cells_seen self.now.table) self.now.target.k self.now.target.when (seen self.now.targets) self.now.target.m self.now.places.now self.now.texts.now) (self.now.table.records - result) result }
    {
        fill_slots(&self.targets, self.target.m, slots);
        let none = [0u32; 0];
        self.first_unfound(&none, &none, slots, from, false)
    }

    // The same in slots of its own. They are of two bytes, so that they fit on the stack where one of the lists of an
    // order stands later.
    fn unslotted_from(&self, from: usize) -> usize
        requires { self.now.targets.records ≤ 4096 }
        ensures { first_from (breaks_target (cells_seen self.now.table) self.now.target.k self.now.target.when (seen self.now.targets) self.now.target.m self.now.places.now self.now.texts.now) (self.now.table.records - from) from ≡ first_from (breaks_target (cells_seen self.now.table) self.now.target.k self.now.target.when (seen self.now.targets) self.now.target.m self.now.places.now self.now.texts.now) (self.now.table.records - result) result }
    {
        let mut slots = [0u16; 8224];
        self.unslotted_in(&mut slots, from)
    }
}

// The first record whose value no target record has, counted from 1; 0 where there is none. Of more target
// records than a table has, each value is searched among all of them.
// What may not change: `target_rule` counts so.
pub fn target_rule_by_order(
    table: &Table,
    t: Target,
    targets: &Table,
    places: &[u32],
    texts: &[u8],
) -> usize
    ensures { result ≡ target_rule (seen table.now) t.k t.when (seen targets.now) t.m places.now texts.now }
{
    if 4096 < targets.records {
        return target_rule(table, t, targets, places, texts);
    }
    let asked = Asked {
        table: *table,
        target: t,
        targets: *targets,
        places,
        texts,
    };
    let none = [0u32; 0];
    let free = [0u16; 0];
    let from = asked.first_unfound(&none, &none, &free, 0, false);
    if from < table.records {
        let then = asked.unslotted_from(from);
        if then < table.records {
            return asked.unfound_from(then);
        }
    }
    0
}
