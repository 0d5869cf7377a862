// A loop among the links of a set: its record numbers, in a lent list.
#![tactic(auto)]

ghost use Rattle.std.specs.Prelude.{◌≡◌, ◌≤◌, length};
ghost use Rattle.rule_cells.specs.Seen.{cells_seen};
ghost use Rattle.link_loops.specs.Loop.{ShowsRing};
ghost use Rattle.show_loop.specs.Show.{leads_to, ShowsLoop, ShowsLoopIn};

use bundle::{bundle_fault, part_at};
use link_classes::fill_classes;
use link_loops::show_links;
use rule_cells::Table;
use table_again::read_again;

// What a call shows: no loop, or a loop of so many records at the start of the list; else a refusal, by the
// number that document 02 gives it.
pub type Shown = Result<Option<usize>, u32>;

const RELATIONSHIPS: usize = 14;

// The cells of 4,096 links, ten each.
const ROOM: usize = 40960;

// Shows a loop of a table's links, whose classes are put down in lent columns.
fn show_columns(table: &Table, from: &mut [usize], to: &mut [usize], list: &mut [u32]) -> usize
    requires { (length from.old ≤ 4096) × (length to.old ≡ length from.old) × (length from.old ≤ length list.old) }
    ensures { ShowsRing (leads_to (cells_seen table.now)) (length from.old) result list.old list.new }
{
    fill_classes(table, from, to);
    show_links(from, to, list)
}

// Shows a loop of a table's links in columns of its own: how many records it has, 0 for none.
fn show_table(table: &Table, list: &mut [u32]) -> usize
    requires { (table.now.records ≤ 4096) × (table.now.records ≤ length list.old) }
    ensures { ShowsRing (leads_to (cells_seen table.now)) table.now.records result list.old list.new }
{
    let records = table.records;
    let mut from = [0usize; 4096];
    let mut to = [0usize; 4096];
    show_columns(table, &mut from[..records], &mut to[..records], list)
}

// Shows a loop of the links that are in a bundle, in a lent workspace, whatever that holds. One of fewer
// than 40,960 numbers is refused as 14, before all else. The list is as before unless a loop is written
// to its start.
pub fn show_loop_in(bundle: &[u8], work: &mut [u32], list: &mut [u32]) -> Shown
    ensures { ShowsLoopIn (length work.old) bundle.now list.old list.new result }
{
    if work.len() < 40960 {
        return Err(14);
    }
    let fault = bundle_fault(bundle, 20);
    if fault != 0 {
        return Err(fault);
    }
    let room = ROOM;
    let read = read_again(bundle, RELATIONSHIPS, &mut work[..room]);
    if read.kind != 0 {
        return Err(12);
    }
    let records = read.records;
    if list.len() < records {
        return Err(13);
    }
    let s = part_at(bundle, RELATIONSHIPS);
    let cells = &work[..room];
    let table = Table {
        text: s,
        cells,
        width: 10,
        records,
    };
    let m = show_table(&table, list);
    if m == 0 {
        return Ok(None);
    }
    Ok(Some(m))
}

// The same in a workspace of its own.
pub fn show_loop(bundle: &[u8], list: &mut [u32]) -> Shown
    ensures { ShowsLoop bundle.now list.old list.new result }
{
    let mut work = [0u32; 40960];
    show_loop_in(bundle, &mut work, list)
}
