//! The lane that is told where bodies didn't end.
ghost use Rattle.std.specs.Prelude.{◌≡◌};
ghost use Rattle.pst_exec.specs.Alone.{end_of};
ghost use Rattle.pst_run_many.specs.Stops.{is_out_of_memory as out_of_memory, earlier_of};

use pst_body::BodyEnd;
use pst_book::Book;
use pst_exec::RunEnd;
use pst_workers::Broken;

/// A lane on which a body didn't end.
#[derive(Clone, Copy)]
pub(crate) struct LaneStop {
    pub lane: u32,
    pub broken: Broken,
}

// Whether a body didn't end since memory ran out.
fn is_out_of_memory(end: BodyEnd) -> bool
    ensures { result ≡ out_of_memory end }
{
    match end {
        BodyEnd::Fault { .. } => false,
        BodyEnd::Trap { .. } => false,
        BodyEnd::NoMemory => true,
    }
}

/// Of the lanes so far and one more, the one that is told: the last one on which memory ran out, or else the first.
pub(crate) fn earlier(first: Option<LaneStop>, stop: Option<Broken>, lane: u32) -> Option<LaneStop>
    ensures { result ≡ earlier_of first stop lane }
{
    match (first, stop) {
        (first, None) => first,
        (None, Some(broken)) => Some(LaneStop { lane, broken }),
        (Some(first), Some(broken)) => {
            if is_out_of_memory(broken.end) {
                Some(LaneStop { lane, broken })
            } else {
                Some(first)
            }
        }
    }
}

/// How a run ends where that lane is told.
pub(crate) fn end_at<'a>(book: Book<'a>, stop: LaneStop) -> RunEnd<'a>
    ensures { result ≡ end_of book.entry stop.lane stop.broken.action stop.broken.end }
{
    let LaneStop { lane, broken } = stop;
    let Broken { action, end } = broken;
    match end {
        BodyEnd::Fault { call } => RunEnd::TargetFault {
            lane,
            action,
            call,
            book,
        },
        BodyEnd::Trap { kind } => RunEnd::BodyTrap {
            lane,
            action,
            kind,
            book,
        },
        BodyEnd::NoMemory => RunEnd::NoMemory,
    }
}
