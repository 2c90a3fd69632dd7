//! Why a run didn't end.
ghost use Rattle.std.specs.Prelude.{◌≡◌};
ghost use Rattle.pst_body.specs.declared.ending.BodyEnd.{BodyEnd as AnyBodyEnd};
ghost use Rattle.pst_book.specs.Books.{View};
ghost use Rattle.pst_exec.specs.Alone.{end_of};

use pst_body::BodyEnd;
use pst_book::Book;

/// Why a run didn't end.
#[derive(Drop)]
pub enum RunEnd<'a> {
    /// The widest group of actions that start together needs more lanes than there are. No lane was called.
    Narrow {
        /// How many lanes it needs.
        need: u32,
        /// How many there are.
        have: u32,
    },
    /// A lane failed in the body of an action that runs on it, and its count of faults has risen, or stands at its last value.
    TargetFault {
        /// The lane.
        lane: u32,
        /// The action.
        action: u32,
        /// The number of the call that failed among the calls of this body, counted from 1.
        call: u32,
        /// The book, in which the action runs.
        book: Book<'a>,
    },
    /// The body of an action trapped.
    BodyTrap {
        /// The lane on which the action runs.
        lane: u32,
        /// The action.
        action: u32,
        /// The kind of the trap.
        kind: u8,
        /// The book, in which the action runs.
        book: Book<'a>,
    },
    /// Memory ran out.
    NoMemory,
}

/// How a run ends where the body of an action that runs on a lane didn't end.
pub(crate) fn broken<'a>(book: Book<'a>, lane: u32, action: u32, end: BodyEnd) -> RunEnd<'a>
    ensures { result ≡ end_of book.entry lane action end }
{
    match end {
        BodyEnd::Fault { call } => RunEnd::TargetFault {
            lane,
            action,
            call,
            book,
        },
        BodyEnd::Trap { kind } => RunEnd::BodyTrap {
            lane,
            action,
            kind,
            book,
        },
        BodyEnd::NoMemory => RunEnd::NoMemory,
    }
}
