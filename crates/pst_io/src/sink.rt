ghost use Rattle.std.specs.Prelude.{◌≡◌, ℕ, ◌+◌, ◌<◌, ◌≤◌, List, length, take, Option, IfOk, OnOk, OnErr, MatchResult};
ghost use Rattle.std.specs.Io.KnownBytes.{append_known};
ghost use Rattle.pst_base.specs.Fault.{HasRisen};

use crate::fault::Failed;
use pst_base::NoMemory;

/// Where bytes are written, in order.
///
/// `written` is the bytes written so far, or `None` where the sink doesn't tell them. `spare` is how many bytes it can
/// take without more memory. `faults` counts the writes that failed.
pub trait Sink {
    ghost written: { Self → Option (List ℕ) };

    ghost spare: { Self → ℕ };

    ghost faults: { Self → ℕ };

    /// Makes room for this many bytes. Where memory is refused nothing is changed.
    fn reserve(&mut self, more: usize) -> Result<(), NoMemory>
        ensures room { OnOk result (more ≤ spare self.new) }
        ensures refused { OnErr result (spare self.new ≡ spare self.old) }
        ensures same_bytes { written self.new ≡ written self.old }
        ensures same_count { faults self.new ≡ faults self.old };

    /// Appends the first bytes of the piece, and gives their number, which is above 0 for a nonempty piece.
    fn write(&mut self, piece: &[u8]) -> Result<usize, Failed>
        requires { length piece.now ≤ spare self.old }
        ensures bound { IfOk result (λ n. n ≤ length piece.now) }
        ensures progress { IfOk result (λ n. 0 < length piece.now → 0 < n) }
        ensures appended { MatchResult result (λ n. written self.new ≡ append_known (written self.old) (take n piece.now))
            (λ _. written self.new ≡ written self.old) }
        ensures room { MatchResult result (λ n. spare self.old ≤ spare self.new + n)
            (λ _. spare self.old ≤ spare self.new) }
        ensures count { MatchResult result (λ _. faults self.new ≡ faults self.old)
            (λ _. HasRisen (faults self.old) (faults self.new)) };
}
