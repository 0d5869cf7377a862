// The entries of a set's records, as numbers in a lent workspace. The files that are read for what is
// judged are read into the front of it, one after the other, and the entries of each go behind those
// of the files before.
#![tactic(auto)]

ghost use Rattle.std.specs.Prelude.{◌≡◌, ◌+◌, ◌*◌, ◌/◌, ◌≤◌, length};
ghost use Rattle.parts.specs.Files.{is_present, bytes_of, new_file};
ghost use Rattle.rule_shape.specs.Rule.{rule_from};
ghost use Rattle.gate_marks.specs.Gate.{expected_in};
ghost use Rattle.gate_marks.specs.Again.{needed};
ghost use Rattle.schedule.specs.Schedule.{schedule};
ghost use Rattle.set_entries.specs.Entries.{key_field, file_entries, entries_up_to};
ghost use Rattle.set_entries.specs.Work.{files_in, file_listed, listed_up_to, count_listed, work_listed};

use bundle::{is_omitted, is_present_after, part_after, part_at};
use entries::list_table;
use found_marks::width_of;
use gate_marks::{Scope, is_read, read_own, room_of};
use schedule::file_forms;
use schedule_rules::rule_rows;
use table_fields::{field_names, field_rows, file_type};

// Whether file i is there, in the bundle or after a change of one of its files.
fn is_there<'a>(bundle: &'a [u8], scope: Scope, present: bool, new: &'a [u8], i: usize) -> bool
    ensures { result ≡ is_present (files_in bundle.now scope (new_file present new.now) i) }
{
    match scope {
        Scope::Full => !is_omitted(bundle, i),
        Scope::Change { file } => is_present_after(bundle, file, present, new, i),
        Scope::Mark { .. } => !is_omitted(bundle, i),
    }
}

// Its bytes, as a part of the bundle or of the new ones.
fn part_there<'a>(
    bundle: &'a [u8],
    scope: Scope,
    present: bool,
    new: &'a [u8],
    i: usize,
) -> &'a [u8]
    ensures { result.now ≡ bytes_of (files_in bundle.now scope (new_file present new.now) i) }
{
    match scope {
        Scope::Full => part_at(bundle, i),
        Scope::Change { file } => part_after(bundle, file, present, new, i),
        Scope::Mark { .. } => part_at(bundle, i),
    }
}

// The first field of the key of file k, counted within its table: in TaskOutlineStructure it stands
// behind Level.
fn key_field(k: usize) -> usize
    ensures { result ≡ key_field k }
{
    if k == 15 { 1 } else { 0 }
}

// Reads file k into the front of the workspace and writes its entries from a place on; answers how many
// these are.
fn list_file<'a>(
    bundle: &'a [u8],
    scope: Scope,
    present: bool,
    new: &'a [u8],
    forms: &[u32],
    fields: &[u32],
    names: &[u8],
    fixed: &[u8],
    k: usize,
    work: &mut [u32],
    at: usize,
) -> usize
    requires { (524288 ≤ at) × (at + 16384 ≤ length work.old) }
    ensures value { (result ≡ length (file_entries (key_field k) (expected_in forms.now fields.now names.now fixed.now k) (files_in bundle.now scope (new_file present new.now) k))) × (result ≤ 4096) }
    ensures work_after { work.new ≡ file_listed (key_field k) (expected_in forms.now fields.now names.now fixed.now k) (files_in bundle.now scope (new_file present new.now) k) at work.old }
{
    let field = key_field(k);
    let there = is_there(bundle, scope, present, new, k);
    let s = part_there(bundle, scope, present, new, k);
    let room = room_of(forms, fields, k);
    let read = read_own(forms, fields, names, fixed, k, there, s, &mut work[..room]);
    if read.kind != 0 {
        return 0;
    }
    let width = width_of(forms, fields, k);
    list_table(s, work, 0, room, width, field, read.records, at)
}

// The entries of files 4 to 19, of those that are read, from a place behind the cells on.
fn list_files<'a>(
    bundle: &'a [u8],
    scope: Scope,
    present: bool,
    new: &'a [u8],
    forms: &[u32],
    fields: &[u32],
    names: &[u8],
    fixed: &[u8],
    rules: &[u32],
    work: &mut [u32],
    base: usize,
) -> usize
    requires { (length forms.now / 2 ≤ 32) × (524288 ≤ base) × (base + 262144 ≤ length work.old) }
    ensures value { result ≡ length (entries_up_to (expected_in forms.now fields.now names.now fixed.now) (needed (length forms.now / 2) (length rules.now / 9) (rule_from rules.now) scope) (files_in bundle.now scope (new_file present new.now)) 16) }
    ensures work_after { work.new ≡ listed_up_to (expected_in forms.now fields.now names.now fixed.now) (needed (length forms.now / 2) (length rules.now / 9) (rule_from rules.now) scope) (files_in bundle.now scope (new_file present new.now)) base 16 work.old }
{
    let n = forms.len() / 2;
    let mut count = 0;
    for i in 0..16 {
        if is_read(n, rules, scope, 4 + i) {
            let more = list_file(
                bundle,
                scope,
                present,
                new,
                forms,
                fields,
                names,
                fixed,
                4 + i,
                work,
                base + 4 * count,
            );
            count += more;
        }
    }
    count
}

// Writes the entries of a set behind the cells, as numbers, four each; answers how many entries these
// are. The files are those of a bundle, or where the scope is a change as they stand after it. A
// workspace of fewer than 1,056,846 numbers is left as it is.
pub fn list_set<'a>(
    bundle: &'a [u8],
    scope: Scope,
    present: bool,
    new: &'a [u8],
    work: &mut [u32],
) -> usize
    ensures value { result ≡ count_listed schedule scope (files_in bundle.now scope (new_file present new.now)) (length work.old) }
    ensures work_after { work.new ≡ work_listed schedule scope (files_in bundle.now scope (new_file present new.now)) work.old }
{
    if work.len() < 1056846 {
        return 0;
    }
    let forms = file_forms();
    let fields = field_rows();
    let names = field_names();
    let fixed = file_type();
    let rules = rule_rows();
    list_files(
        bundle, scope, present, new, &forms, &fields, &names, &fixed, &rules, work, 794702,
    )
}
