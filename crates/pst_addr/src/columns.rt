//! Columns of a square, 64 of them at a time.
//!
//! Which rows have a bit is asked row by row, and each row lies in another part of memory. So the
//! words of 64 columns are brought together once, and serve the asks of these 64 actions.
ghost use Rattle.std.specs.Prelude.{◌≡◌, ◌↔◌, ◌+◌, ◌*◌, ◌/◌, ◌<◌, length, get_or, IsTrue};
ghost use Rattle.pst_scen.specs.Rows.{row_words, IsSquare, Has};
ghost use Rattle.pst_addr.specs.Columns.{IsColumn};

use pst_scen::{Plan, Rows};

/// The word of that place in the row of an action.
pub(crate) fn word_at(rows: &Rows, a: u32, place: usize) -> u64
    requires square { IsSquare rows.now }
    requires a_in { a < rows.now.size }
    requires place_in { place < row_words rows.now.size }
    ensures { result ≡ get_or rows.now.words (a * row_words rows.now.size + place) 0 }
{
    let row = (rows.size as usize + 63) / 64;
    rows.words.as_slice()[a as usize * row + place]
}

/// Writes the words of that place of all rows.
fn fill(column: &mut [u64], rows: &Rows, place: usize)
    requires square { IsSquare rows.now }
    requires many { length column.old ≡ rows.now.size }
    requires place_in { place < row_words rows.now.size }
    ensures { IsColumn rows.now place column.new }
{
    for a in 0..rows.size {
        column[a as usize] = word_at(rows, a, place);
    }
}

/// Brings together the words of that place of all rows, unless they are those that are held.
pub(crate) fn bring(column: &mut [u64], held: usize, rows: &Rows, place: usize)
    requires square { IsSquare rows.now }
    requires many { length column.old ≡ rows.now.size }
    requires place_in { place < row_words rows.now.size }
    requires held { held < row_words rows.now.size → IsColumn rows.now held column.old }
    ensures { IsColumn rows.now place column.new }
{
    if held != place {
        fill(column, rows, place);
    }
}

/// Whether the second action must end before the first starts, where the words of the first one's
/// column are held.
pub(crate) fn comes_behind(plan: &Plan, column: &[u64], one: u32, other: u32) -> bool
    requires column { IsColumn plan.now.must (one / 64) column.now }
    requires other_in { other < length plan.now.groups }
    ensures { IsTrue result ↔ Has plan.now.must other one }
{
    let _rows = plan.must_rows();
    column[other as usize] >> (one % 64) & 1 == 1
}
