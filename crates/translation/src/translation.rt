ghost use Rattle.std.specs.Prelude.{◌≡◌};
ghost use Rattle.translation.specs.Tables.{argument, deed_by, row_of, image, no_rows, blank};

use action::call::Call;
use action::deed::Deed;

/// The most rows that a translation has.
pub const MOST_ROWS: usize = 64;

/// The highest selector: which argument of a call a deed takes, or 0 for the number 0.
pub const HIGHEST_SELECTOR: u8 = 3;

// One row of a translation: which calls it is for, and the deed that they become.
// Whatever the fields hold is read as parts within the ranges.
#[derive(Clone, Copy)]
pub(crate) struct Row {
    // Stays: bytes, as in a deed.
    pub(crate) code: u8,
    pub(crate) address: u8,
    pub(crate) signal: u8,
    // what the arguments of the deed are taken from: 0 is the number 0, 1 to 3 an argument of the call
    pub(crate) first: u8,
    pub(crate) second: u8,
}

impl Row {
    // A row that stands where none is used.
    pub(crate) fn blank() -> Row
        ensures { result ≡ blank }
    {
        Row {
            code: 0,
            address: 0,
            signal: 0,
            first: 0,
            second: 0,
        }
    }

    // The deed that a call becomes by this row.
    fn deed(&self, call: &Call) -> Deed
        ensures { result ≡ deed_by self.now call.now }
    {
        let first = selected(self.first % (HIGHEST_SELECTOR + 1), call);
        let second = selected(self.second % (HIGHEST_SELECTOR + 1), call);
        Deed::reading(self.address, self.signal, first, second)
    }
}

// What a selector takes from a call.
// Stays: a selector is the byte of the file, and an enum would be one more reading of it into these four cases.
fn selected(selector: u8, call: &Call) -> u8
    ensures { result ≡ argument selector call.now }
{
    match selector {
        1 => call.first(),
        2 => call.second(),
        3 => call.third(),
        _ => 0,
    }
}

/// Which calls become a deed, and which deed: a table of rows, and how many of them are used.
// Stays: a library has no memory of its own to keep a list in.
#[derive(Clone, Copy)]
pub struct Translation {
    pub(crate) rows: [Row; MOST_ROWS],
    pub(crate) used: usize,
}

impl Translation {
    /// Without rows no call becomes a deed.
    pub fn none() -> Translation
        ensures { result ≡ no_rows }
    {
        let row = Row::blank();
        Translation {
            rows: [row; MOST_ROWS],
            used: 0,
        }
    }

    /// The deed that a call becomes, if there is a row for it.
    pub fn translate(&self, call: &Call) -> Option<Deed>
        ensures { result ≡ image self.now call.now }
    {
        let row = find_row(&self.rows, self.used, 8 * call.family() + call.form())?;
        Some(row.deed(call))
    }
}

// The first used row of this code.
fn find_row(rows: &[Row; MOST_ROWS], used: usize, code: u8) -> Option<Row>
    ensures { result ≡ row_of rows.now used code }
{
    rows.iter().take(used).find(|row| row.code == code).copied()
}
