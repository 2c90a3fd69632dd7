//! What the words of a line come to.
ghost use Rattle.std.specs.Prelude.{◌≡◌};
ghost use Rattle.pst_outcome.specs.Outcome.{bytes_of};

use crate::stage::Stage;
use pst_base::Items;

/// What a line comes to before anything is done with its model.
#[derive(Drop)]
pub struct LineFront {
    /// What its sources come to.
    pub stage: Stage,
    /// The bytes of its trace file, where it has one.
    pub trace: Option<Items<u8>>,
}

/// The bytes of a trace file; none where there is no such file.
pub fn trace_of(trace: &Option<Items<u8>>) -> &[u8]
    ensures { result.now ≡ bytes_of trace.now }
{
    match trace {
        Some(text) => text.as_slice(),
        None => &[],
    }
}
