// The constants of document 002: the 136 fields of its section 2.2, the 61 enumeration values of its
// section 2.4, and the text of FileType.txt. A caller takes a copy once and lends it: a constant is
// stored anew at each use.
#![tactic(auto)]

ghost use Rattle.std.specs.Prelude.{◌≡◌};
ghost use Rattle.table_fields.specs.Fields.{file_type};
ghost use Rattle.table_fields.specs.Flat.{field_rows, field_names, value_places, value_texts};

mod tables;

pub fn field_rows() -> [u32; 680]
    ensures { result ≡ field_rows }
{
    tables::FIELD_ROWS
}

pub fn field_names() -> [u8; 2022]
    ensures { result ≡ field_names }
{
    tables::FIELD_NAMES
}

pub fn value_places() -> [u32; 122]
    ensures { result ≡ value_places }
{
    tables::VALUE_PLACES
}

pub fn value_texts() -> [u8; 803]
    ensures { result ≡ value_texts }
{
    tables::VALUE_TEXTS
}

pub fn file_type() -> [u8; 39]
    ensures { result ≡ file_type }
{
    tables::FILE_TYPE
}
