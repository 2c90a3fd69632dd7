//! The law of rows.
ghost use Rattle.pst_sweep_table.specs.Laws.{RowsAreOne};

use pst_legal::first_is_one;

/// A seed comes to one outcome with one list of uses, or one of two is a spent budget. The law is the
/// contract of a function that does nothing. A caller that needs it in a proof calls the function.
pub fn rows_are_one()
    ensures { RowsAreOne }
{
    first_is_one();
}
