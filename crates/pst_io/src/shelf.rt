ghost use Rattle.std.specs.Prelude.{◌≡◌, ℕ, ◌≤◌, List, length, drop, Option, IfOk, OnErr, MatchResult};
ghost use Rattle.std.specs.Bool.{OnTrue, OnFalse};
ghost use Rattle.std.specs.Option.{option_map, ForSome};
ghost use Rattle.pst_base.specs.Fault.{HasRisen};
ghost use Rattle.pst_io.specs.Shelf.{Files, TellsWhether, HasOpened, MovesFront};

use crate::fault::Failed;

/// A place with files that have names, of which one at a time is open to be read.
///
/// `files` is the bytes of each file by its name and `rest` what is left of the open file. Both are `None` where the
/// shelf doesn't tell them. `faults` counts the calls that failed.
pub trait Shelf {
    ghost files: { Self → Option Files };

    ghost rest: { Self → Option (List ℕ) };

    ghost faults: { Self → ℕ };

    /// Opens the file of this name at its first byte, and closes the one that was open. False: there is no such file,
    /// and what was open stays open.
    fn open(&mut self, name: &str) -> Result<bool, Failed>
        ensures same_files { files self.new ≡ files self.old }
        ensures answer { IfOk result (λ found. TellsWhether (files self.old) name.now found) }
        ensures opened { IfOk result (λ found. OnTrue found (HasOpened (files self.old) name.now (rest self.new))) }
        ensures not_opened { IfOk result (λ found. OnFalse found (rest self.new ≡ rest self.old)) }
        ensures failed { OnErr result (rest self.new ≡ rest self.old) }
        ensures count { MatchResult result (λ _. faults self.new ≡ faults self.old)
            (λ _. HasRisen (faults self.old) (faults self.new)) };

    /// Moves the next bytes of the open file to the front of the piece, and gives their number. It is 0 for a nonempty
    /// piece exactly at the file's end.
    fn read(&mut self, into: &mut [u8]) -> Result<usize, Failed>
        ensures same_files { files self.new ≡ files self.old }
        ensures bound { IfOk result (λ n. n ≤ length into.old) }
        ensures moved { IfOk result (λ n. ForSome (rest self.old) (λ left. MovesFront left into.old into.new n)) }
        ensures left { MatchResult result (λ n. rest self.new ≡ option_map (drop n) (rest self.old))
            (λ _. rest self.new ≡ rest self.old) }
        ensures count { MatchResult result (λ _. faults self.new ≡ faults self.old)
            (λ _. HasRisen (faults self.old) (faults self.new)) };
}
