//! Laws of refused constraints.
ghost use Rattle.pst_read_domains.specs.RefusalsStayLaws.{LegalScenariosAreInDomains, RefusedDoesNotHold, RefusedAtWiderBounds, RefusedListsAreBarren, BeginningsAreLive};

use crate::{handles_have_their_types, nodes_stand_for_pieces};
use pst_built::{dead_stays_dead, longer_lists_keep_what_is_known, refusals_go_on};
use pst_domain::spans_hold_values;

/// What is known of a legal scenario of a sound model lies in its domains.
pub fn legal_scenarios_are_in_domains()
    ensures { LegalScenariosAreInDomains }
{}

/// A scenario of a sound model in which every constraint holds has none that is refused, at its own
/// bounds or at wider ones, that forget what is known of some slots.
pub fn refused_does_not_hold()
    ensures own { RefusedDoesNotHold }
    ensures wider { RefusedAtWiderBounds }
{
    spans_hold_values();
}

/// Where a constraint of what a list has read is refused, no longer list reads a legal scenario.
pub fn refused_lists_are_barren()
    ensures { RefusedListsAreBarren }
{
    refusals_go_on();
    nodes_stand_for_pieces();
    handles_have_their_types();
    longer_lists_keep_what_is_known();
    legal_scenarios_are_in_domains();
    refused_does_not_hold();
}

/// Each list that begins one that reads a legal scenario is live, unless it is empty: so a search may
/// leave out each list that isn't live, with all that begin with it.
pub fn beginnings_are_live()
    ensures { BeginningsAreLive }
{
    dead_stays_dead();
    refused_lists_are_barren();
}
