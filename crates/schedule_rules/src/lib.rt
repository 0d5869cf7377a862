// The rules of the schedule gate as rows. A caller takes a copy once and lends it: a constant is
// stored anew at each use.
#![tactic(auto)]

ghost use Rattle.std.specs.Prelude.{◌≡◌};
ghost use Rattle.schedule_rules.specs.Rules.{rule_rows};

mod rows;

pub fn rule_rows() -> [u32; 549]
    ensures { result ≡ rule_rows }
{
    rows::RULE_ROWS
}
