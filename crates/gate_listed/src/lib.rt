// The calls with a lent list of entries: thin functions over the calls that leave the entries as numbers
// in the workspace. Only these touch the list.
#![tactic(auto)]

ghost use Rattle.std.specs.Prelude.{◌≡◌, ◌++◌, ◌+◌, ◌*◌, ◌≤◌, ◌<◌, length, drop};
ghost use Rattle.parts.specs.Files.{new_file};
ghost use Rattle.mark_numbers.specs.Marks.{marks_in};
ghost use Rattle.bundle_layout.specs.Bundle.{file_at};
ghost use Rattle.bundle_layout.specs.Change.{files_after};
ghost use Rattle.entries.specs.Flat.{entries_in};
ghost use Rattle.schedule.specs.Schedule.{schedule};
ghost use Rattle.gate_marks.specs.declared.Scope.TheVariants.{Full, Change};
ghost use Rattle.set_entries.specs.Entries.{set_entries};
ghost use Rattle.gate_flat.specs.Listed.{judge_listed, try_listed, make_listed, output_after, list_after, listed_of, list_left};

use entries::Entry;
use gate_flat::{Listed, judge_flat, make_flat, try_flat};

// Fills the start of a list with n entries, from the numbers that stand in `flat` from a place on, four
// for each. The numbers are lent as `&mut`, so that a caller who holds them so can hand them on; they are
// only read.
fn fill_entries(list: &mut [Entry], n: usize, flat: &mut [u32], from: usize)
    requires { (n ≤ length list.old) × (0 < n → from + 4 * n ≤ length flat.old) }
    ensures { (list.new ≡ entries_in flat.old from n ++ drop n list.old) × (flat.new ≡ flat.old) }
{
    let mut i = 0;
    let mut at = from;
    while i < n {
        list[i] = Entry {
            start: flat[at],
            length: flat[at + 1],
            sum: flat[at + 2],
            record: flat[at + 3],
        };
        i += 1;
        at += 4;
    }
}

// Judges a bundle in full: its marks go to the lists of marks, the entries of its records to the front of
// the list.
pub fn judge_listed(
    bundle: &[u8],
    work: &mut [u32],
    kinds: &mut [u32],
    places: &mut [usize],
    companions: &mut [usize],
    list: &mut [Entry],
) -> Listed
    ensures { (result ≡ listed_of (set_entries schedule Full (file_at bundle.now)) (judge_listed schedule bundle.now (length work.old) (length list.old) (marks_in kinds.old places.old companions.old))) × (marks_in kinds.new places.new companions.new ≡ (judge_listed schedule bundle.now (length work.old) (length list.old) (marks_in kinds.old places.old companions.old)).marks) × (list.new ≡ list_after result.refusal (set_entries schedule Full (file_at bundle.now)) list.old) × (work.new ≡ list_left schedule Full (file_at bundle.now) result.refusal work.old) }
{
    let told = judge_flat(bundle, work, kinds, places, companions, list.len());
    let n = told.entries;
    fill_entries(list, n, work, 794702);
    told
}

// Tries a change of file k, to new bytes or, where `present` is false, to none: the list gets the entries
// of the files that were read for it.
pub fn try_listed<'a>(
    bundle: &'a [u8],
    k: usize,
    present: bool,
    new: &'a [u8],
    work: &mut [u32],
    kinds: &mut [u32],
    places: &mut [usize],
    companions: &mut [usize],
    list: &mut [Entry],
) -> Listed
    ensures { (result ≡ listed_of (set_entries schedule (Change k) (files_after bundle.now k (new_file present new.now))) (try_listed schedule bundle.now k (new_file present new.now) (length work.old) (length list.old) (marks_in kinds.old places.old companions.old))) × (marks_in kinds.new places.new companions.new ≡ (try_listed schedule bundle.now k (new_file present new.now) (length work.old) (length list.old) (marks_in kinds.old places.old companions.old)).marks) × (list.new ≡ list_after result.refusal (set_entries schedule (Change k) (files_after bundle.now k (new_file present new.now))) list.old) × (work.new ≡ list_left schedule (Change k) (files_after bundle.now k (new_file present new.now)) result.refusal work.old) }
{
    let told = try_flat(
        bundle,
        k,
        present,
        new,
        work,
        kinds,
        places,
        companions,
        list.len(),
    );
    let n = told.entries;
    fill_entries(list, n, work, 794702);
    told
}

// Makes a change: the new bundle goes to the front of `out`, unless it is refused.
pub fn make_listed<'a>(
    bundle: &'a [u8],
    k: usize,
    present: bool,
    new: &'a [u8],
    out: &mut [u8],
    work: &mut [u32],
    kinds: &mut [u32],
    places: &mut [usize],
    companions: &mut [usize],
    list: &mut [Entry],
) -> Listed
    ensures { (result ≡ listed_of (set_entries schedule (Change k) (files_after bundle.now k (new_file present new.now))) (make_listed schedule bundle.now k (new_file present new.now) (length out.old) (length work.old) (length list.old) (marks_in kinds.old places.old companions.old))) × (marks_in kinds.new places.new companions.new ≡ (make_listed schedule bundle.now k (new_file present new.now) (length out.old) (length work.old) (length list.old) (marks_in kinds.old places.old companions.old)).marks) × (out.new ≡ output_after schedule result.refusal (files_after bundle.now k (new_file present new.now)) out.old) × (list.new ≡ list_after result.refusal (set_entries schedule (Change k) (files_after bundle.now k (new_file present new.now))) list.old) × (work.new ≡ list_left schedule (Change k) (files_after bundle.now k (new_file present new.now)) result.refusal work.old) }
{
    let told = make_flat(
        bundle,
        k,
        present,
        new,
        out,
        work,
        kinds,
        places,
        companions,
        list.len(),
    );
    let n = told.entries;
    fill_entries(list, n, work, 794702);
    told
}
