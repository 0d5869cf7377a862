// The rules of the baseline profile as rows: document 01's, and behind them those of marks 81 to 84.
#![tactic(auto)]

ghost use Rattle.std.specs.Prelude.{◌≡◌, ◌++◌, ◌+◌, length};
ghost use Rattle.baseline_rules.specs.Rules.{further_rows, baseline_rows};

use schedule_rules::rule_rows;

mod rows;

fn further_rows() -> [u32; 36]
    ensures { result ≡ further_rows }
{
    rows::FURTHER_ROWS
}

// Puts two lists, one behind the other, over a third that is as long.
fn join(first: &[u32], second: &[u32], out: &mut [u32])
    requires { length out.old ≡ length first.now + length second.now }
    ensures { out.new ≡ first.now ++ second.now }
{
    let n = first.len();
    out[..n].copy_from_slice(first);
    out[n..].copy_from_slice(second);
}

// As those of document 01, a caller takes a copy once and lends it.
pub fn baseline_rows() -> [u32; 585]
    ensures { result ≡ baseline_rows }
{
    let first = rule_rows();
    let further = further_rows();
    let mut rows = [0u32; 585];
    join(&first, &further, &mut rows);
    rows
}
