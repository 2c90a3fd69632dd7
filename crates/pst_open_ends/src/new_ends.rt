//! The references of new actions, of one pool, that may be sources.
ghost use Rattle.std.specs.Prelude.{◌≡◌, ◌++◌, [], OnOk};
ghost use Rattle.pst_scen.specs.declared.act.Flow.{Flow as the_flow};
ghost use Rattle.pst_legal.specs.Supplied.{is_source_for};
ghost use Rattle.pst_open_ends.specs.Beyond.{row_sources, source_if};

use crate::spot::Source;
use pst_base::NoMemory;
use pst_scen::Flow;
use std::alloc::Global;

/// The references of new actions, of one pool, that may be sources, each list by type, instance and
/// reference.
#[derive(Drop)]
pub struct NewEnds {
    /// The outputs of buffers.
    pub buffers: Vec<Source>,
    /// The inputs of streams, which are sources of their outputs.
    pub stream_inputs: Vec<Source>,
    /// The outputs of streams.
    pub stream_outputs: Vec<Source>,
    /// The outputs of states.
    pub writers: Vec<Source>,
}

impl NewEnds {
    pub(crate) fn new(alloc: Global) -> NewEnds
        ensures { (need : the_flow) → row_sources need result ≡ [] }
    {
        NewEnds {
            buffers: Vec::new(alloc),
            stream_inputs: Vec::new(alloc),
            stream_outputs: Vec::new(alloc),
            writers: Vec::new(alloc),
        }
    }

    /// Adds a reference of a kind.
    pub(crate) fn add(&mut self, flow: Flow, source: Source) -> Result<(), NoMemory>
        ensures { OnOk result ((need : the_flow) → row_sources need self.new ≡ row_sources need self.old ++ source_if (is_source_for need flow) source) }
    {
        match flow {
            Flow::BufferIn => Ok(()),
            Flow::BufferOut => {
                self.buffers.push(source)?;
                Ok(())
            }
            Flow::StreamIn => {
                self.stream_inputs.push(source)?;
                Ok(())
            }
            Flow::StreamOut => {
                self.stream_outputs.push(source)?;
                Ok(())
            }
            Flow::StateIn => Ok(()),
            Flow::StateOut => {
                self.writers.push(source)?;
                Ok(())
            }
        }
    }

    /// The references that may be the source of a need of a kind.
    pub(crate) fn of_need(&self, need: Flow) -> &[Source]
        ensures { result.now ≡ row_sources need self.now }
    {
        match need {
            Flow::BufferIn => self.buffers.as_slice(),
            Flow::BufferOut => &[],
            Flow::StreamIn => self.stream_outputs.as_slice(),
            Flow::StreamOut => self.stream_inputs.as_slice(),
            Flow::StateIn => self.writers.as_slice(),
            Flow::StateOut => self.writers.as_slice(),
        }
    }
}
