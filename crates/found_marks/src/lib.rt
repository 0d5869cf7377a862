// A mark from lists in which files were read: the cells of all files in one list, and each file's mark
// and the number of its records in lists of their own. What stands past the end of a list is 0.
#![tactic(auto, unfolding(crate::specs::Found::count_in, crate::specs::Found::found_mark, parts::specs::Part::part_of))]

ghost use Rattle.std.specs.Prelude.{◌≡◌, ◌+◌, ◌*◌, get_or, take};
ghost use Rattle.parts.specs.Part.{part_of};
ghost use Rattle.standing.specs.Standing.{standing};
ghost use Rattle.mark_numbers.specs.Marks.{marks_in};
ghost use Rattle.rule_shape.specs.Rule.{rule_from};
ghost use Rattle.found_marks.specs.Found.{count_in, table_in, rule_mark_in, found_mark};

use mark_numbers::{Mark, kind_at, mark_in, number_at};
use rule_shape::{first_file, second_file};
use rules::{is_judged, mark_of, rule_break};
use standing::part_standing;
use table_rows::{cell_at, field_count};

const NOT_JUDGED: Mark = Mark {
    kind: 2,
    place: 0,
    companion: 0,
};

// How many fields file k has; a fixed text has none.
pub fn count_of(forms: &[u32], fields: &[u32], k: usize) -> usize
    ensures { result ≡ count_in forms.now fields.now k }
{
    if 1 < cell_at(forms, 2, k, 0) {
        0
    } else {
        field_count(fields, k)
    }
}

// How many cells a record of file k has.
pub fn width_of(forms: &[u32], fields: &[u32], k: usize) -> usize
    ensures { result ≡ 2 * count_in forms.now fields.now k }
{
    2 * count_of(forms, fields, k)
}

// The cells of file k, from its start up to the next; none where there is no such part.
pub fn cells_of<'a>(work: &'a [u32], starts: &[usize], k: usize) -> &'a [u32]
    ensures { result.now ≡ part_of work.now (get_or starts.now k 0) (get_or starts.now (k + 1) 0) }
{
    if starts.len() <= k {
        return &[];
    }
    let from = starts[k];
    let to = number_at(starts, k + 1);
    if from <= to && to <= work.len() {
        &work[from..to]
    } else {
        &[]
    }
}

// Of a file's cells those of its records: what stands behind them is what stood there before, and tells nothing.
fn record_cells(cells: &[u32], width: usize, records: usize) -> &[u32]
    ensures { result.now ≡ take (records * width) cells.now }
{
    match records.checked_mul(width) {
        Some(n) if n <= cells.len() => &cells[..n],
        _ => cells,
    }
}

// Rule i over files that have been read, which have marks of these kinds and so many records.
fn rule_mark<'a>(
    a: &'a [u8],
    b: &'a [u8],
    c: &'a [u8],
    stand: &[usize],
    forms: &[u32],
    fields: &[u32],
    rules: &[u32],
    values: &[u32],
    texts: &[u8],
    i: usize,
    starts: &[usize],
    work: &[u32],
    kinds: &[u32],
    records: &[usize],
) -> Mark
    ensures { result ≡ rule_mark_in values.now texts.now (table_in (standing a.now b.now c.now stand.now) (count_in forms.now fields.now) starts.now work.now records.now) kinds.now (rule_from rules.now i) }
{
    let first = first_file(rules, i);
    let second = second_file(rules, i);
    if !is_judged(kind_at(kinds, first), kind_at(kinds, second)) {
        return NOT_JUDGED;
    }
    let s = part_standing(a, b, c, stand, first);
    let u = part_standing(a, b, c, stand, second);
    let width = width_of(forms, fields, first);
    let n = number_at(records, first);
    let u_width = width_of(forms, fields, second);
    let u_n = number_at(records, second);
    let found = rule_break(
        rules,
        i,
        s,
        record_cells(cells_of(work, starts, first), width, n),
        width,
        n,
        u,
        record_cells(cells_of(work, starts, second), u_width, u_n),
        u_width,
        u_n,
        values,
        texts,
    );
    mark_of(true, found)
}

// Mark m from files that have been read, of n files' marks and those of the rules.
pub fn mark_at<'a>(
    a: &'a [u8],
    b: &'a [u8],
    c: &'a [u8],
    stand: &[usize],
    forms: &[u32],
    fields: &[u32],
    rules: &[u32],
    values: &[u32],
    texts: &[u8],
    n: usize,
    m: usize,
    starts: &[usize],
    work: &[u32],
    kinds: &[u32],
    places: &[usize],
    companions: &[usize],
    records: &[usize],
) -> Mark
    ensures { result ≡ found_mark n (rule_from rules.now) values.now texts.now (table_in (standing a.now b.now c.now stand.now) (count_in forms.now fields.now) starts.now work.now records.now) (marks_in kinds.now places.now companions.now) m }
{
    if m < n {
        return mark_in(kinds, places, companions, m);
    }
    let i = m - n;
    if n <= first_file(rules, i) || n <= second_file(rules, i) {
        return NOT_JUDGED;
    }
    rule_mark(
        a, b, c, stand, forms, fields, rules, values, texts, i, starts, work, kinds, records,
    )
}
