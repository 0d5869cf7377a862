// The names of the 20 files of a set and of their tables.
#![tactic(auto, unfolding(crate::specs::Names::file_name, crate::specs::Names::file_names, crate::specs::Names::table_name, json_bytes::specs::Ascii::codes,))]

ghost use Rattle.std.specs.Prelude.{◌≡◌, not, eqb};
ghost use Rattle.std.specs.List.{prefix_len};
ghost use Rattle.file_names.specs.Names.{file_name, table_name, up_to_dot};
ghost use Rattle.output.specs.Output.{output_at, put};

use output::put_text;

// A file's name; nothing for a number over 19.
fn file_name(file: usize) -> &'static [u8]
    ensures { result.now ≡ file_name file }
{
    match file {
        0 => b"FileType.txt",
        1 => b"DatasetMetadata.json",
        2 => b"SourceSoftwareMetadata.json",
        3 => b"ProjectScheduleData.json",
        4 => b"ProjectCustomFieldDefinitions.json",
        5 => b"ProjectCustomFieldValues.json",
        6 => b"Calendars.json",
        7 => b"CalendarWorkshifts.json",
        8 => b"CalendarExceptions.json",
        9 => b"Tasks.json",
        10 => b"TaskScheduleData.json",
        11 => b"TaskCustomFieldDefinitions.json",
        12 => b"TaskCustomFieldValues.json",
        13 => b"TaskConstraints.json",
        14 => b"TaskRelationships.json",
        15 => b"TaskOutlineStructure.json",
        16 => b"Resources.json",
        17 => b"ResourceCustomFieldDefinitions.json",
        18 => b"ResourceCustomFieldValues.json",
        19 => b"ResourceAssignments.json",
        _ => b"",
    }
}

// How many bytes of a name stand before its dot.
fn dot_at(name: &[u8]) -> usize
    ensures { result ≡ prefix_len (λ b. not (eqb b 46)) name.now }
{
    name.iter().take_while(|b| **b != b'.').count()
}

// A file's name up to its dot.
#[tactic(auto, using(crate::proofs::Laws::up_to_dot_taken))]
pub fn up_to_dot(name: &[u8]) -> &[u8]
    ensures { result.now ≡ up_to_dot name.now }
{
    &name[..dot_at(name)]
}

// Puts a file's name into an output; for a number over 19 nothing.
pub fn put_file_name(out: &mut [u8], at: usize, file: usize) -> usize
    ensures { output_at out.new result ≡ put (output_at out.old at) (file_name file) }
{
    put_text(out, at, file_name(file))
}

// Puts a table's name, which is its file's up to the dot.
pub fn put_table_name(out: &mut [u8], at: usize, file: usize) -> usize
    ensures { output_at out.new result ≡ put (output_at out.old at) (table_name file) }
{
    put_text(out, at, up_to_dot(file_name(file)))
}
