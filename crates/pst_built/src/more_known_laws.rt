//! The law of refused constraints.
ghost use Rattle.pst_built.specs.MoreKnownLaws.{RefusalsGoOn};

use pst_domain::{narrower_bounds_give_inner_spans, spans_are_sane};

/// Where a scenario goes on from another, and what is known of it lies in the domains of a sound
/// model, a constraint that was refused is refused: the bounds of each slot have only narrowed.
pub fn refusals_go_on()
    ensures { RefusalsGoOn }
{
    narrower_bounds_give_inner_spans();
    spans_are_sane();
}
