// The rules of the contract side as rows. A caller takes a copy once and lends it: a constant is
// stored anew at each use.
#![tactic(auto)]

ghost use Rattle.std.specs.Prelude.{◌≡◌};
ghost use Rattle.contract_rules.specs.Rules.{contract_rule_rows};

mod rows;

pub fn contract_rule_rows() -> [u32; 135]
    ensures { result ≡ contract_rule_rows }
{
    rows::RULE_ROWS
}
