//! Laws of what is known so far.
ghost use Rattle.pst_read_domains.specs.Laws.{ReadValuesAreInDomains, RefusalsStayRefused};

use crate::{
    acts_are_of_their_types, compound_values_are_in_domains, handles_have_their_types,
    links_join_pools, nodes_stand_for_pieces, whole_lists_lie_ahead,
};
use pst_built::{longer_lists_keep_what_is_known, refusals_go_on, whole_readings_fit};

/// What is known of whatever a list of choices has read, whole or so far, of a sound model and for a
/// root that isn't abstract, lies in its domains: values in those of their fields, claimed instances
/// among those of their pools, and links within one pool.
pub fn read_values_are_in_domains()
    ensures { ReadValuesAreInDomains }
{
    acts_are_of_their_types();
    links_join_pools();
    compound_values_are_in_domains();
    whole_lists_lie_ahead();
    whole_readings_fit();
    longer_lists_keep_what_is_known();
}

/// So where a constraint is refused at what a list has read, one is refused at what each longer list
/// has read, whole or so far.
pub fn refusals_stay_refused()
    ensures { RefusalsStayRefused }
{
    read_values_are_in_domains();
    refusals_go_on();
    nodes_stand_for_pieces();
    handles_have_their_types();
    longer_lists_keep_what_is_known();
}
