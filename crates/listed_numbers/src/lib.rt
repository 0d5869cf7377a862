// The calls with a list of entries that is lent as plain numbers, four an entry: start, length, sum and
// record. What has no structs in common with this language, a program in C or one that reads and writes
// bytes, lends a list in this form.
#![tactic(auto)]

ghost use Rattle.std.specs.Prelude.{◌≡◌, ◌+◌, ◌*◌, ◌≤◌, ◌<◌, length};
ghost use Rattle.parts.specs.Files.{new_file};
ghost use Rattle.mark_numbers.specs.Marks.{marks_in};
ghost use Rattle.bundle_bytes.specs.Pieces.{written};
ghost use Rattle.bundle_layout.specs.Bundle.{file_at};
ghost use Rattle.bundle_layout.specs.Change.{files_after};
ghost use Rattle.schedule.specs.Schedule.{schedule};
ghost use Rattle.gate_marks.specs.declared.Scope.TheVariants.{Full, Change};
ghost use Rattle.set_entries.specs.Entries.{set_entries};
ghost use Rattle.gate_flat.specs.Listed.{judge_listed, try_listed, make_listed, output_after, listed_of, list_left};
ghost use Rattle.listed_numbers.specs.Numbers.{places_in, numbers_after, numbers_from};

use gate_flat::{Listed, judge_flat, make_flat, try_flat};

// Where the entries of a set start in a workspace, behind the cells.
const ENTRIES: usize = 794702;

// Writes numbers over the start of a list, where there are as many.
fn put_start(list: &mut [u32], numbers: &[u32])
    ensures { list.new ≡ written list.old 0 numbers.now }
{
    if list.len() < numbers.len() {
        return;
    }
    let mut i = 0;
    while i < numbers.len() {
        list[i] = numbers[i];
        i += 1;
    }
}

// Hands the numbers of n entries over, which stand in the workspace from a place on. Without entries it
// may be shorter than that.
fn hand_over(list: &mut [u32], work: &[u32], from: usize, n: usize)
    requires { 0 < n → from + 4 * n ≤ length work.now }
    ensures { list.new ≡ written list.old 0 (numbers_from work.now from n) }
{
    if n == 0 {
        return;
    }
    put_start(list, &work[from..from + 4 * n]);
}

// Judges a bundle in full: its marks go to the lists of marks, the entries of its records to the start of
// the list. Where the list has fewer places than there are entries it is refused as 8.
pub fn judge_numbers(
    bundle: &[u8],
    work: &mut [u32],
    kinds: &mut [u32],
    places: &mut [usize],
    companions: &mut [usize],
    list: &mut [u32],
) -> Listed
    ensures value { result ≡ listed_of (set_entries schedule Full (file_at bundle.now)) (judge_listed schedule bundle.now (length work.old) (places_in list.old) (marks_in kinds.old places.old companions.old)) }
    ensures board_after { marks_in kinds.new places.new companions.new ≡ (judge_listed schedule bundle.now (length work.old) (places_in list.old) (marks_in kinds.old places.old companions.old)).marks }
    ensures list_after { list.new ≡ numbers_after result.refusal (set_entries schedule Full (file_at bundle.now)) list.old }
    ensures work_after { work.new ≡ list_left schedule Full (file_at bundle.now) result.refusal work.old }
{
    let told = judge_flat(bundle, work, kinds, places, companions, list.len() / 4);
    let n = told.entries;
    hand_over(list, work, ENTRIES, n);
    told
}

// Tries a change of file k, to new bytes or, where `present` is false, to none: the list gets the entries
// of the files that were read for it.
pub fn try_numbers<'a>(
    bundle: &'a [u8],
    k: usize,
    present: bool,
    new: &'a [u8],
    work: &mut [u32],
    kinds: &mut [u32],
    places: &mut [usize],
    companions: &mut [usize],
    list: &mut [u32],
) -> Listed
    ensures value { result ≡ listed_of (set_entries schedule (Change k) (files_after bundle.now k (new_file present new.now))) (try_listed schedule bundle.now k (new_file present new.now) (length work.old) (places_in list.old) (marks_in kinds.old places.old companions.old)) }
    ensures board_after { marks_in kinds.new places.new companions.new ≡ (try_listed schedule bundle.now k (new_file present new.now) (length work.old) (places_in list.old) (marks_in kinds.old places.old companions.old)).marks }
    ensures list_after { list.new ≡ numbers_after result.refusal (set_entries schedule (Change k) (files_after bundle.now k (new_file present new.now))) list.old }
    ensures work_after { work.new ≡ list_left schedule (Change k) (files_after bundle.now k (new_file present new.now)) result.refusal work.old }
{
    let told = try_flat(
        bundle,
        k,
        present,
        new,
        work,
        kinds,
        places,
        companions,
        list.len() / 4,
    );
    let n = told.entries;
    hand_over(list, work, ENTRIES, n);
    told
}

// Makes a change: the new bundle goes to the front of `out`, unless it is refused.
pub fn make_numbers<'a>(
    bundle: &'a [u8],
    k: usize,
    present: bool,
    new: &'a [u8],
    out: &mut [u8],
    work: &mut [u32],
    kinds: &mut [u32],
    places: &mut [usize],
    companions: &mut [usize],
    list: &mut [u32],
) -> Listed
    ensures value { result ≡ listed_of (set_entries schedule (Change k) (files_after bundle.now k (new_file present new.now))) (make_listed schedule bundle.now k (new_file present new.now) (length out.old) (length work.old) (places_in list.old) (marks_in kinds.old places.old companions.old)) }
    ensures board_after { marks_in kinds.new places.new companions.new ≡ (make_listed schedule bundle.now k (new_file present new.now) (length out.old) (length work.old) (places_in list.old) (marks_in kinds.old places.old companions.old)).marks }
    ensures out_after { out.new ≡ output_after schedule result.refusal (files_after bundle.now k (new_file present new.now)) out.old }
    ensures list_after { list.new ≡ numbers_after result.refusal (set_entries schedule (Change k) (files_after bundle.now k (new_file present new.now))) list.old }
    ensures work_after { work.new ≡ list_left schedule (Change k) (files_after bundle.now k (new_file present new.now)) result.refusal work.old }
{
    let told = make_flat(
        bundle,
        k,
        present,
        new,
        out,
        work,
        kinds,
        places,
        companions,
        list.len() / 4,
    );
    let n = told.entries;
    hand_over(list, work, ENTRIES, n);
    told
}
