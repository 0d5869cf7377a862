// What a set adds to a quarter: judged first, and if it is accepted, the sums over its assignments.
#![tactic(auto)]

ghost use Rattle.std.specs.Prelude.{◌≡◌, ◌≤◌, length, take, drop};
ghost use Rattle.parts.specs.Files.{bytes_of};
ghost use Rattle.rule_cells.specs.Cells.{table};
ghost use Rattle.bundle_layout.specs.Bundle.{file_at};
ghost use Rattle.element_sums.specs.Sums.{sums_in};
ghost use Rattle.set_sums.specs.Set.{assignments_of, resources_of, set_sums_in};
ghost use Rattle.set_sums.specs.Work.{tables_left, sums_left};

use board::is_accepted;
use bundle::part_at;
use element_sums::{Sums, no_sums, sums_in};
use gate::judge_in;
use table_again::read_records;

const RESOURCES: usize = 16;

const ASSIGNMENTS: usize = 19;

// Where the cells of 4,096 resources end, of 8 each, and behind them those of as many assignments, of 18 each.
const RESOURCES_END: usize = 32768;

const ASSIGNMENTS_END: usize = 106496;

// The sums over the tables of a set, whose cells stand at the front of a list.
fn sums_read(bundle: &[u8], work: &[u32], records: usize, u_records: usize) -> Sums
    requires { 106496 ≤ length work.now }
    ensures { result ≡ sums_in (table (bytes_of (file_at bundle.now 19)) (take 73728 (drop 32768 work.now)) 18 records) (table (bytes_of (file_at bundle.now 16)) (take 32768 work.now) 8 u_records) }
{
    let from = RESOURCES_END;
    let to = ASSIGNMENTS_END;
    let u = part_at(bundle, RESOURCES);
    let s = part_at(bundle, ASSIGNMENTS);
    let u_cells = &work[..from];
    let cells = &work[from..to];
    sums_in(s, cells, 18, records, u, u_cells, 8, u_records)
}

// The same, with the tables read into the front of a lent workspace first.
fn table_sums(bundle: &[u8], work: &mut [u32]) -> Sums
    requires { 106496 ≤ length work.old }
    ensures value { result ≡ sums_in (assignments_of bundle.now) (resources_of bundle.now) }
    ensures work_after { work.new ≡ tables_left bundle.now work.old }
{
    let from = RESOURCES_END;
    let to = ASSIGNMENTS_END;
    let u_records = read_records(bundle, RESOURCES, &mut work[..from]);
    let records = read_records(bundle, ASSIGNMENTS, &mut work[from..to]);
    sums_read(bundle, work, records, u_records)
}

// Whether a set counts, and what it adds then, in a lent workspace, whatever that holds; nothing where it
// is of fewer than 794,702 numbers.
pub fn set_sums(bundle: &[u8], work: &mut [u32]) -> Sums
    ensures value { result ≡ set_sums_in (length work.old) bundle.now }
    ensures work_after { work.new ≡ sums_left bundle.now work.old }
{
    if work.len() < 794702 {
        return no_sums();
    }
    let verdict = judge_in(bundle, work);
    if verdict.refusal != 0 {
        return no_sums();
    }
    let board = verdict.board;
    if is_accepted(board) {
        return table_sums(bundle, work);
    }
    no_sums()
}
