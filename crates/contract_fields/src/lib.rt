// The constants of document 000 that the contract side's gate reads: the 23 fields of its tables
// Subcontractors, WBS, OBS and ControlAccounts. A caller takes a copy once and lends it: a constant is
// stored anew at each use.
#![tactic(auto)]

ghost use Rattle.std.specs.Prelude.{◌≡◌};
ghost use Rattle.contract_fields.specs.Fields.{contract_field_rows, contract_field_names};

mod tables;

pub fn contract_field_rows() -> [u32; 115]
    ensures { result ≡ contract_field_rows }
{
    tables::FIELD_ROWS
}

pub fn contract_field_names() -> [u8; 221]
    ensures { result ≡ contract_field_names }
{
    tables::FIELD_NAMES
}
