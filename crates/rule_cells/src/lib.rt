// What a rule sees of a readable table: for each record and field whether it holds a value, where
// the value stands, and what it is. Records and fields are counted from 0.
#![tactic(auto, unfolding(crate::specs::Cells::cell_of, crate::specs::Cells::start_of, crate::specs::Cells::is_given, crate::specs::Cells::text_of, crate::specs::Cells::same_text, crate::specs::Cells::is_word, crate::specs::Cells::is_true, crate::specs::Cells::integer_in, crate::specs::Cells::date_in, crate::specs::Cells::sign_in))]

ghost use Rattle.std.specs.Prelude.{◌≡◌, ◌+◌, ◌*◌, ◌≤◌, ◌<◌};
ghost use Rattle.rule_cells.specs.Cells.{cell_of, start_of, is_given, same_text, is_word, is_true, integer_in, date_in, sign_in};
ghost use Rattle.rule_cells.specs.Seen.{cells_seen};

use json_bytes::byte_at;
use json_date::{Day, date_at};
use json_number::{Integer, Sign, integer_at, number_at, sign_of};
use json_same::{Case, same_text, text_is};

// A readable table: its bytes, its cells, how many cells a record has, and how many records there are.
#[derive(Clone, Copy)]
pub struct Table<'a> {
    pub text: &'a [u8],
    pub cells: &'a [u32],
    pub width: usize,
    pub records: usize,
}

impl Table<'_> {
    // Cell j of record r; 0 past them.
    fn cell_of(&self, r: usize, j: usize) -> usize
        ensures { result ≡ cell_of self.now.cells.now self.now.width r j }
    {
        if 4096 < r || 128 < self.width || 128 < j {
            return 0;
        }
        let i = r * self.width + j;
        if i < self.cells.len() {
            self.cells[i] as usize
        } else {
            0
        }
    }

    // Where the value of field k of record r starts.
    pub fn start_of(&self, r: usize, k: usize) -> usize
        ensures { result ≡ start_of self.now.cells.now self.now.width r k }
    {
        if 64 < k {
            return 0;
        }
        self.cell_of(r, 2 * k)
    }

    // Whether field k of record r holds a value.
    pub fn is_given(&self, r: usize, k: usize) -> bool
        ensures { result ≡ is_given self.now.cells.now self.now.width r k }
    {
        k < 64 && 0 < self.cell_of(r, 2 * k + 1)
    }

    // Whether field k of record r and field m of record q of a table, this or another, are the same
    // ID or enumeration value.
    pub fn same_in(&self, r: usize, k: usize, other: &Table, q: usize, m: usize) -> bool
        ensures { result ≡ same_text (cells_seen self.now) r k (cells_seen other.now) q m }
    {
        same_text(
            self.text,
            self.start_of(r, k),
            other.text,
            other.start_of(q, m),
            Case::Folded,
        )
    }

    // Whether field k of record r is a fixed word, A to Z counting as a to z.
    pub fn is_word(&self, r: usize, k: usize, word: &[u8]) -> bool
        ensures { result ≡ is_word (cells_seen self.now) r k word.now }
    {
        text_is(self.text, self.start_of(r, k), word, Case::Folded)
    }

    // Whether a Boolean is given and true.
    pub fn is_true(&self, r: usize, k: usize) -> bool
        ensures { result ≡ is_true (cells_seen self.now) r k }
    {
        self.is_given(r, k) && byte_at(self.text, self.start_of(r, k)) == b't'
    }

    // The Integer in field k of record r; a null is 0.
    pub fn integer_in(&self, r: usize, k: usize) -> Integer
        ensures { result ≡ integer_in (cells_seen self.now) r k }
    {
        if self.is_given(r, k) {
            integer_at(self.text, self.start_of(r, k))
        } else {
            Integer::Is {
                negative: false,
                magnitude: 0,
            }
        }
    }

    // The Date in field k of record r.
    pub fn date_in(&self, r: usize, k: usize) -> Option<Day>
        ensures { result ≡ date_in (cells_seen self.now) r k }
    {
        date_at(self.text, self.start_of(r, k))
    }

    // The Decimal in field k of record r beside zero; a null is 0.
    pub fn sign_in(&self, r: usize, k: usize) -> Sign
        ensures { result ≡ sign_in (cells_seen self.now) r k }
    {
        if self.is_given(r, k) {
            let value = number_at(self.text, self.start_of(r, k)).value;
            sign_of(value)
        } else {
            Sign::Zero
        }
    }
}

// The two that are asked by the cells alone, with no table at hand.
pub fn start_of(cells: &[u32], width: usize, r: usize, k: usize) -> usize
    ensures { result ≡ start_of cells.now width r k }
{
    let table = Table {
        text: &[],
        cells,
        width,
        records: 0,
    };
    table.start_of(r, k)
}

pub fn is_given(cells: &[u32], width: usize, r: usize, k: usize) -> bool
    ensures { result ≡ is_given cells.now width r k }
{
    let table = Table {
        text: &[],
        cells,
        width,
        records: 0,
    };
    table.is_given(r, k)
}
