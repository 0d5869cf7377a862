// The names of each gate's files, tables and fields, put into an output as `output` does.
#![tactic(auto, unfolding(crate::specs::Names::contract_file, crate::specs::Names::contract_file_names, crate::specs::Names::file_name_of, crate::specs::Names::table_name_of, crate::specs::Names::table_fields, crate::specs::Names::field_name_of, json_bytes::specs::Ascii::codes))]

ghost use Rattle.std.specs.Prelude.{◌≡◌};
ghost use Rattle.output.specs.Output.{output_at, put};
ghost use Rattle.table_fields.specs.Fields.{fields_of};
ghost use Rattle.contract_fields.specs.Fields.{contract_fields_of};
ghost use Rattle.gate_names.specs.Names.{contract_file, file_name_of, table_name_of, field_name_of, name_among, name_in_rows};

use contract_fields::{contract_field_names, contract_field_rows};
use file_names::{put_file_name, put_table_name, up_to_dot};
use gate_lists::Which;
use output::put_text;
use parts::part;
use table_fields::{field_names, field_rows};
use table_rows::{field_count, first_field, name_end, name_start, rows_after};

// The name of a file of the contract side; nothing for a number over 3.
fn contract_file(file: usize) -> &'static [u8]
    ensures { result.now ≡ contract_file file }
{
    match file {
        0 => b"Subcontractors.json",
        1 => b"WBS.json",
        2 => b"OBS.json",
        3 => b"ControlAccounts.json",
        _ => b"",
    }
}

// The name of a file of the gate; nothing where it has no such file.
pub fn put_file_of(which: Which, out: &mut [u8], at: usize, file: usize) -> usize
    ensures { output_at out.new result ≡ put (output_at out.old at) (file_name_of which file) }
{
    match which {
        Which::Schedule | Which::Baseline => put_file_name(out, at, file),
        Which::Contract => put_text(out, at, contract_file(file)),
    }
}

// That of a table, by the number of its file.
pub fn put_table_of(which: Which, out: &mut [u8], at: usize, file: usize) -> usize
    ensures { output_at out.new result ≡ put (output_at out.old at) (table_name_of which file) }
{
    match which {
        Which::Schedule | Which::Baseline => put_table_name(out, at, file),
        Which::Contract => put_text(out, at, up_to_dot(contract_file(file))),
    }
}

// The name of a file's field in lent rows; nothing where they have no such field.
pub fn put_name_in_rows<'a>(
    out: &mut [u8],
    at: usize,
    rows: &'a [u32],
    names: &'a [u8],
    file: usize,
    field: usize,
) -> usize
    ensures { output_at out.new result ≡ put (output_at out.old at) (name_in_rows rows.now names.now file field) }
{
    if field_count(rows, file) <= field {
        return at;
    }
    let own = rows_after(rows, first_field(rows, file));
    put_text(
        out,
        at,
        part(names, name_start(own, field), name_end(own, field)),
    )
}

// That in document 002's tables.
fn put_schedule_field(out: &mut [u8], at: usize, file: usize, field: usize) -> usize
    ensures { output_at out.new result ≡ put (output_at out.old at) (name_among (fields_of file) field) }
{
    let rows = field_rows();
    let names = field_names();
    put_name_in_rows(out, at, &rows, &names, file, field)
}

// That in document 000's.
fn put_contract_field(out: &mut [u8], at: usize, file: usize, field: usize) -> usize
    ensures { output_at out.new result ≡ put (output_at out.old at) (name_among (contract_fields_of file) field) }
{
    let rows = contract_field_rows();
    let names = contract_field_names();
    put_name_in_rows(out, at, &rows, &names, file, field)
}

// The name of a field of the gate, by the number of its file and its own.
pub fn put_field_of(which: Which, out: &mut [u8], at: usize, file: usize, field: usize) -> usize
    ensures { output_at out.new result ≡ put (output_at out.old at) (field_name_of which file field) }
{
    match which {
        Which::Schedule | Which::Baseline => put_schedule_field(out, at, file, field),
        Which::Contract => put_contract_field(out, at, file, field),
    }
}
