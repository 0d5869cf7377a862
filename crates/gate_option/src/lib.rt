// Which gate an argument of a program names, and which argument what is judged by it.
#![tactic(auto)]

ghost use Rattle.std.specs.Prelude.{◌≡◌, true};
ghost use Rattle.gate_option.specs.Option.{gate_named, asked_by};

use gate_lists::Which;

// A gate, or none.
#[derive(Clone, Copy)]
pub enum Named {
    Gate { which: Which },
    Nothing,
}

// Whether two texts are the same.
fn same(a: &[u8], b: &[u8]) -> bool
    ensures { (result ≡ true → a.now ≡ b.now) × (a.now ≡ b.now → result ≡ true) }
{
    a == b
}

// Document 01's gate has no word: it is the one where no argument names another.
pub fn gate_named(word: &[u8]) -> Named
    ensures { result ≡ gate_named word.now }
{
    if same(word, b"--baseline") {
        return Named::Gate {
            which: Which::Baseline,
        };
    }
    if same(word, b"--contract") {
        return Named::Gate {
            which: Which::Contract,
        };
    }
    Named::Nothing
}

// By which gate a program is asked to judge, and which argument names what is judged; or nothing that can
// be told.
#[derive(Clone, Copy)]
pub enum Asked {
    Of { which: Which, named: usize },
    Unclear,
}

// What a program is asked that takes a gate's word, or none, and one argument more: by the count of its
// arguments, its own name among them, and the first one behind that name.
pub fn asked_by(count: usize, first: &[u8]) -> Asked
    ensures { result ≡ asked_by count first.now }
{
    if count == 2 {
        return Asked::Of {
            which: Which::Schedule,
            named: 1,
        };
    }
    if count != 3 {
        return Asked::Unclear;
    }
    match gate_named(first) {
        Named::Gate { which } => Asked::Of { which, named: 2 },
        Named::Nothing => Asked::Unclear,
    }
}
