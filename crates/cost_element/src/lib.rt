// The elements of cost of assignments, each that of the resource with its ID, through an order of the
// resources by ID and then by element: one lookup tells whether some resource has both.
#![tactic(auto, unfolding(rule_cells::specs::Cells::first_that, rule_cells::specs::Cells::text_of, crate::specs::Found::element_found))]

ghost use Rattle.std.specs.Prelude.{◌≡◌, true, ℕ, ◌+◌, ◌<◌, ◌≤◌, length, leb};
ghost use Rattle.json_chars.specs.Chars.{chars_at};
ghost use Rattle.mark_numbers.specs.Marks.{list_of};
ghost use Rattle.rule_cells.specs.Cells.{text_of, is_word, first_that};
ghost use Rattle.rule_cells.specs.Seen.{cells_seen};
ghost use Rattle.key_order.specs.Order.{sums_of, in_key_order, are_fit};
ghost use Rattle.key_lookup.specs.Lookup.{key_of};
ghost use Rattle.cost_element.specs.Element.{assigned_id, resource_id, element_id, elements_after};
ghost use Rattle.cost_element.specs.Found.{first_of_element, lookup_at, is_of_found, element_found};

use key_lookup::{Index, Lookup, key_of};
use key_order::key_order;
use parts::part;
use rule_cells::Table;
use table_fields::{value_places, value_texts};
use table_rows::{value_end, value_start};

// Fields of document 002: ResourceID of an assignment; ID and ElementOfCostID of a resource.
const ASSIGNED_ID: usize = 0;

const RESOURCE_ID: usize = 0;

const ELEMENT_ID: usize = 2;

const ELEMENT_COUNT: usize = 4;

// The number of the first element's name among all enumeration values.
const FIRST_NAME: usize = 47;

// The first resource whose element is a name, counted from 1; 0 for none.
fn first_named(table: &Table, name: &[u8]) -> usize
    ensures { result ≡ first_that (λ (q : ℕ). is_word (cells_seen table.now) q element_id name.now) table.now.records }
{
    for q in 0..table.records {
        if table.is_word(q, ELEMENT_ID, name) {
            return q + 1;
        }
    }
    0
}

// The first resource of element e.
fn first_of_element(table: &Table, e: usize) -> usize
    requires { e < 4 }
    ensures { result ≡ first_of_element (cells_seen table.now) table.now.records e }
{
    let places = value_places();
    let texts = value_texts();
    let v = FIRST_NAME + e;
    let name = part(&texts, value_start(&places, v), value_end(&places, v));
    first_named(table, name)
}

// Puts down the first resource of each element.
fn fill_firsts(table: &Table, firsts: &mut [usize])
    requires { length firsts.old ≤ 4 }
    ensures { firsts.new ≡ list_of (first_of_element (cells_seen table.now) table.now.records) (length firsts.old) }
{
    for (e, first) in firsts.iter_mut().enumerate() {
        *first = first_of_element(table, e);
    }
}

// Whether some resource has the ID at a place and element e.
fn is_of(
    s: &[u8],
    at: usize,
    table: &Table,
    firsts: &[usize],
    sums: &[u32],
    order: &[u32],
    e: usize,
) -> bool
    requires { e < length firsts.now }
    ensures { result ≡ is_of_found (cells_seen table.now) firsts.now sums.now order.now (chars_at s.now at) e }
{
    let first = firsts[e];
    if first == 0 {
        return false;
    }
    let l = Lookup {
        m: RESOURCE_ID,
        k: ELEMENT_ID,
        kind: 1,
        also: table.start_of(first - 1, ELEMENT_ID),
    };
    let resources = Index {
        table: *table,
        lookup: l,
        sums,
        order,
    };
    resources.is_found(s, at)
}

// The element of the ID at a place, from 1 to 4; 0 where there is none.
fn element_of(
    s: &[u8],
    at: usize,
    table: &Table,
    firsts: &[usize],
    sums: &[u32],
    order: &[u32],
) -> u32
    requires { length firsts.now ≡ 4 }
    ensures { result ≡ element_found (cells_seen table.now) firsts.now sums.now order.now (chars_at s.now at) }
{
    for e in 0..ELEMENT_COUNT {
        if is_of(s, at, table, firsts, sums, order, e) {
            return (e + 1) as u32;
        }
    }
    0
}

// Puts down the element of each assignment, looked up.
fn fill_found(
    table: &Table,
    other: &Table,
    firsts: &[usize],
    sums: &[u32],
    order: &[u32],
    elements: &mut [u32],
)
    requires { length firsts.now ≡ 4 }
    ensures { elements.new ≡ list_of (λ (r : ℕ). element_found (cells_seen other.now) firsts.now sums.now order.now (text_of (cells_seen table.now) r assigned_id)) (length elements.old) }
{
    for (r, element) in elements.iter_mut().enumerate() {
        let at = table.start_of(r, ASSIGNED_ID);
        *element = element_of(table.text, at, other, firsts, sums, order);
    }
}

// The same, once the resources are in order in the lent lists.
fn fill_in_order(
    table: &Table,
    other: &Table,
    firsts: &[usize],
    sums: &mut [u32],
    order: &mut [u32],
    scratch: &mut [u32],
    elements: &mut [u32],
)
    requires { (length firsts.now ≡ 4) × (are_fit sums.old order.old scratch.old ≡ true) }
    ensures { elements.new ≡ list_of (λ (r : ℕ). element_found (cells_seen other.now) firsts.now (sums_of (cells_seen other.now) resource_id (length order.old)) (in_key_order (cells_seen other.now) (key_of (lookup_at 0)) (length order.old)) (text_of (cells_seen table.now) r assigned_id)) (length elements.old) }
{
    let l = Lookup {
        m: RESOURCE_ID,
        k: ELEMENT_ID,
        kind: 1,
        also: 0,
    };
    key_order(other, key_of(l), sums, order, scratch);
    fill_found(table, other, firsts, sums, order, elements);
}

// Puts down the elements of as many assignments as the list has places, from 1 to 4, and 0 for one whose
// resource is none of the other table's. Of more resources than a table has, nothing is looked up: the answer is false,
// and the list is as before.
pub fn fill_elements(table: &Table, other: &Table, elements: &mut [u32]) -> bool
    ensures value { result ≡ leb other.now.records 4096 }
    ensures elements_after { elements.new ≡ elements_after (cells_seen table.now) (cells_seen other.now) other.now.records elements.old }
{
    let n = other.records;
    if 4096 < n {
        return false;
    }
    let mut firsts = [0usize; 4];
    fill_firsts(other, &mut firsts);
    let mut sums = [0u32; 4096];
    let mut order = [0u32; 4096];
    let mut scratch = [0u32; 4096];
    fill_in_order(
        table,
        other,
        &firsts,
        &mut sums[..n],
        &mut order[..n],
        &mut scratch[..n],
        elements,
    );
    true
}
