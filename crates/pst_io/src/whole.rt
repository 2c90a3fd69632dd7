ghost use Rattle.std.specs.Prelude.{◌≡◌, ℕ, ◌+◌, ◌<◌, ◌≤◌, ◌++◌, length, take, vec_len, IfOk, OnOk, OnErr, IsErrOf, MatchResult};
ghost use Rattle.std.specs.Option.{ForSome};
ghost use Rattle.std.specs.Io.KnownBytes.{append_known};
ghost use Rattle.pst_base.specs.Fault.{HasRisen};
ghost use Rattle.pst_io.specs.Shelf.{HasTaken};
ghost use Rattle.pst_io.specs.ReadEnd.{CountsFault};
ghost use Rattle.pst_io.specs.declared.whole.ReadEnd.TheVariants.{Failed, NoMemory};

use crate::fault::Failed;
use crate::shelf::Shelf;
use crate::sink::Sink;
use std::alloc::AllocError;

/// Why a file wasn't read to its end.
#[derive(Clone, Copy, Debug, PartialEq, Eq)]
pub enum ReadEnd {
    /// The shelf's count of faults rose.
    Failed,
    /// There are more bytes than allowed.
    TooLong,
    /// Memory ran out.
    NoMemory,
}

impl From<Failed> for ReadEnd {
    ghost from_gives = { λ _ end. end ≡ Failed };

    fn from(_failed: Failed) -> ReadEnd {
        ReadEnd::Failed
    }
}

impl From<AllocError> for ReadEnd {
    ghost from_gives = { λ _ end. end ≡ NoMemory };

    fn from(_error: AllocError) -> ReadEnd {
        ReadEnd::NoMemory
    }
}

/// Appends what is left of the open file, unless that is more than `most` bytes: then some of it, more than `most` bytes.
/// Where the shelf fails or memory runs out, what was read before is appended.
pub fn read_all<S: Shelf>(shelf: &mut S, into: &mut Vec<u8>, most: usize) -> Result<(), ReadEnd>
    ensures same_files { S.files shelf.new ≡ S.files shelf.old }
    ensures taken { HasTaken (S.rest shelf.old) (S.rest shelf.new) into.old.items into.new.items }
    ensures whole { OnOk result (ForSome (S.rest shelf.old) (λ left. into.new.items ≡ into.old.items ++ left)) }
    ensures count { CountsFault result (S.faults shelf.old) (S.faults shelf.new) }

    // The limit, told or not.
    ensures within { OnOk result (vec_len into.new ≤ vec_len into.old + most) }
    ensures beyond { IsErrOf result ReadEnd.TooLong → vec_len into.old + most < vec_len into.new }

    // The same of what was left, where it is told.
    ensures fits { OnOk result (ForSome (S.rest shelf.old) (λ left. length left ≤ most)) }
    ensures too_long { IsErrOf result ReadEnd.TooLong → ForSome (S.rest shelf.old) (λ left. most < length left) }
{
    let start = into.len();
    let mut piece = [0u8; 4096];
    while into.len() - start <= most {
        into.reserve(piece.len())?;
        let n = shelf.read(&mut piece)?;
        if n == 0 {
            return Ok(());
        }
        into.extend_from_slice(&piece[..n]).unwrap();
    }
    Err(ReadEnd::TooLong)
}

/// Writes the whole text, for which there is room. At `Failed` a part of it was written, and not the whole.
pub fn write_all<K: Sink>(sink: &mut K, text: &[u8]) -> Result<(), Failed>
    requires { length text.now ≤ K.spare sink.old }
    ensures whole { OnOk result (K.written sink.new ≡ append_known (K.written sink.old) text.now) }
    ensures part { OnErr result ((k : ℕ) × (k < length text.now)
        × (K.written sink.new ≡ append_known (K.written sink.old) (take k text.now))) }
    ensures room { K.spare sink.old ≤ K.spare sink.new + length text.now }
    ensures count { MatchResult result (λ _. K.faults sink.new ≡ K.faults sink.old)
        (λ _. HasRisen (K.faults sink.old) (K.faults sink.new)) }
{
    let mut done = 0;
    while done < text.len() {
        done += sink.write(&text[done..])?;
    }
    Ok(())
}
