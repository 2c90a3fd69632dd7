//! What the text of a trace says.

use pst_scen::Event;
use pst_trace_lines::LastLine;

/// What the text of a trace says.
#[derive(Drop)]
pub struct TraceText {
    /// Its format, 1 or 2.
    pub format: u8,
    /// The lines of its header without their line feeds, from the format on.
    pub header: Vec<String>,
    /// The events of its blocks.
    pub events: Vec<Event>,
    /// What its last line says.
    pub last: LastLine,
}
