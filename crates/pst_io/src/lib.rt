//! Where the product reads and writes: shelves of named files, and sinks of bytes.
#![tactic(auto)]

mod fault;
mod fault_plan;
mod file_shelf;
mod memory_shelf;
mod memory_sink;
mod out_sink;
mod shelf;
mod sink;
mod sure_shelf;
mod sure_sink;
mod whole;

pub use fault::Failed;
pub use file_shelf::FileShelf;
pub use memory_shelf::MemoryShelf;
pub use memory_sink::MemorySink;
pub use out_sink::OutSink;
pub use shelf::Shelf;
pub use sink::Sink;
pub use sure_shelf::SureShelf;
pub use sure_sink::SureSink;
pub use whole::{ReadEnd, read_all, write_all};
