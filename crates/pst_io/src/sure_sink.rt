ghost use Rattle.std.specs.Prelude.{◌≡◌, ℕ, ◌+◌, ◌-◌, ◌≤◌, ◌<◌, [], ◌++◌, min, Ok, Some, length, take, OnOk, OnErr, IsOk};

use crate::fault::Failed;
use crate::sink::Sink;
use pst_base::NoMemory;
use std::alloc::Global;
use std::marker::Model;

/// A sink in memory that never fails, and takes at most a given number of bytes at a time.
#[derive(Drop)]
pub struct SureSink {
    bytes: Vec<u8>,
    most: usize,
}

impl Model for SureSink {
    ghost use Rattle.pst_io.specs.Held.{HeldBytes};

    ghost Value = { HeldBytes };

    ghost use Rattle.pst_io.specs.SureSink.{held_bytes, TakesSome};

    ghost view = { held_bytes };

    ghost invariant = { TakesSome };
}

impl SureSink {
    /// An empty sink that takes at most `most` bytes at a time. It takes no memory yet.
    pub fn new(alloc: Global, most: usize) -> SureSink
        requires { 1 ≤ most }
        ensures { result ≡ record { written = []; spare = 0; most = most } }
    {
        SureSink {
            bytes: Vec::new(alloc),
            most,
        }
    }

    /// The bytes written so far.
    pub fn bytes(&self) -> &[u8]
        ensures { result.now ≡ self.now.written }
    {
        self.bytes.as_slice()
    }
}

impl Sink for SureSink {
    ghost written = { λ sink. Some sink.written };

    ghost spare = { λ sink. sink.spare };

    ghost faults = { λ _. 0 };

    fn reserve(&mut self, more: usize) -> Result<(), NoMemory>
        ensures room { OnOk result (more ≤ self.new.spare) }
        ensures sink { self.new ≡ record self.old { spare = self.new.spare } }
        ensures kept { self.old.spare ≤ self.new.spare }
        ensures refused { OnErr result (self.new ≡ self.old) }
        ensures enough { more ≤ self.old.spare → IsOk result }
    {
        self.bytes.reserve(more)?;
        Ok(())
    }

    fn write(&mut self, piece: &[u8]) -> Result<usize, Failed>
        requires { length piece.now ≤ self.old.spare }
        ensures answer { result ≡ Ok (min self.old.most (length piece.now)) }
        ensures sink { self.new ≡ record self.old {
          written = self.old.written ++ take self.old.most piece.now;
          spare = self.new.spare;
        } }
        ensures room { self.old.spare ≤ self.new.spare + min self.old.most (length piece.now) }
        ensures some { 1 ≤ self.old.most }
    {
        let n = self.most.min(piece.len());
        self.bytes.extend_from_slice(&piece[..n]).unwrap();
        Ok(n)
    }
}
