//! What a search asks of a walker through lists of choices.
ghost use Rattle.std.specs.Prelude.{◌≡◌, ℕ, ◌<◌, ◌≤◌, [], length, IfOk, OnOk};
ghost use Rattle.pst_search_loop.specs.Kept.{Kept, answer, with_choice, at_level, Shows, Judges, Rests, Skips, SkipsNothing, HasDigit, HasOptions, IsWhole};

use crate::conflict::Conflict;
use pst_base::NoMemory;
use std::alloc::Global;

/// What a walker shows of its list.
#[derive(Debug, Drop)]
pub enum Look {
    /// A place with so many options, and no constraint is refused.
    Options(u64),
    /// A whole scenario, and no constraint is refused.
    Whole,
    /// No legal scenario agrees with these choices.
    Closed(Conflict),
}

/// What a walker says of a whole scenario.
#[derive(Debug, Drop)]
pub enum Judged {
    /// It is legal.
    Legal,
    /// It isn't, nor is any other that agrees with these choices.
    Refused(Conflict),
}

/// Options of a place that are skipped, from one of them on.
#[derive(Debug, Drop)]
pub struct Skipped {
    /// The first option that isn't skipped, or how many there are where none is left.
    pub digit: u64,
    /// No legal scenario agrees with these choices and has one of the options that are skipped.
    pub conflict: Conflict,
}

impl Skipped {
    /// Nothing is skipped from that option on. It takes no memory.
    pub fn nothing(alloc: Global, digit: u64) -> Skipped
        ensures { SkipsNothing digit result }
    {
        Skipped {
            digit,
            conflict: Conflict::nothing(alloc),
        }
    }
}

/// A walker through lists of choices. Contracts see what it keeps.
pub trait Walker: Drop {
    /// The model, the root, the seed, what choices stand for, the level and the choices.
    ghost kept: { Self → Kept };

    /// What the list comes to.
    fn look(&mut self) -> Result<Look, NoMemory>
        ensures same { OnOk result (kept self.new ≡ kept self.old) }
        ensures shows { IfOk result (λ shown. Shows (kept self.old) shown) };

    /// What a place rests on: where a legal scenario agrees with these choices, one of the place's
    /// options holds of it.
    fn rests(&self, count: u64) -> Result<Conflict, NoMemory>
        requires { HasOptions (answer (kept self.now)) count }
        ensures { IfOk result (λ conflict. Rests (kept self.now) count conflict) };

    /// The first option of a place, from one of them on, that isn't skipped, and why those before it are. An option
    /// may be skipped only where no legal scenario that agrees with the choices of the conflict has it.
    fn skip(&mut self, from: u64, count: u64) -> Result<Skipped, NoMemory>
        requires options { HasOptions (answer (kept self.old)) count }
        requires named { from ≤ count }
        ensures same { OnOk result (kept self.new ≡ kept self.old) }
        ensures skips { IfOk result (λ skipped. Skips (kept self.old) from count skipped) };

    /// One choice more.
    fn choose(&mut self, digit: u64) -> Result<(), NoMemory>
        requires { HasDigit (answer (kept self.old)) digit }
        ensures { OnOk result (kept self.new ≡ with_choice (kept self.old) digit) };

    /// Takes the last choice back.
    fn back(&mut self)
        requires { 0 < length (kept self.old).choices }
        ensures { (digit : ℕ) × (kept self.old ≡ with_choice (kept self.new) digit) };

    /// Whether the whole scenario of the list is legal.
    fn judge(&self) -> Result<Judged, NoMemory>
        requires { IsWhole (answer (kept self.now)) }
        ensures { IfOk result (λ answer. Judges (kept self.now) answer) };

    /// Begins a level.
    fn begin(&mut self, level: u32) -> Result<(), NoMemory>
        ensures { OnOk result (kept self.new ≡ at_level (kept self.old) level) };
}
