//! Laws of what is read so far.
ghost use Rattle.pst_read_so_far.specs.Laws.{LinksJoinOpenEnds, OpenBlanksAreToCome, PlacesAreOfOpenBlanks, AsManyPlacesCome, OpenSlotsWait, BlanksAreReadInTurn, ReadingsFitAhead, ConstraintsStayRefused};

use pst_blank_values::filled_blanks_stand;
use pst_built::{longer_lists_keep_what_is_known, whole_readings_fit};
use pst_domain::{narrower_bounds_give_inner_spans, spans_are_sane};
use pst_read_domains::{
    acts_are_of_their_types, handles_have_their_types, nodes_stand_for_pieces,
    read_values_are_in_domains, whole_lists_lie_ahead,
};

/// Whatever a list of choices has read, whole or so far, its links join open ends of one pool: a link
/// leads to a reference of another action that may be the source, the ends of a stream name each
/// other, and an object of a state pool is replaced by one output at most.
pub fn links_join_open_ends()
    ensures { LinksJoinOpenEnds }
{}

/// Of a sound model and a root that isn't abstract, the blanks in which nothing stands yet are those
/// whose places are still to come, in order: behind the sources the place at hand is that of the
/// first of them, and as many places come as there are.
pub fn open_blanks_wait()
    ensures blanks { OpenBlanksAreToCome }
    ensures places { PlacesAreOfOpenBlanks }
    ensures count { AsManyPlacesCome }
{
    filled_blanks_stand();
}

/// Of a sound model and a root that isn't abstract, each slot of a constraint that is open waits for
/// the place of an open blank.
pub fn open_slots_wait()
    ensures { OpenSlotsWait }
{
    acts_are_of_their_types();
    links_join_open_ends();
}

/// Behind the sources claims, first objects and values are read one after another: what these parts
/// come to is what the whole list reads.
pub fn blanks_are_read_in_turn()
    ensures { BlanksAreReadInTurn }
{}

/// What is known behind the sources is known of a scenario that fits, so each value so far is of its
/// field's domain.
pub fn readings_fit_ahead()
    ensures { ReadingsFitAhead }
{
    whole_lists_lie_ahead();
    whole_readings_fit();
    longer_lists_keep_what_is_known();
}

/// Each constraint of what a list has read is one of what each longer list has read, of which the
/// bounds have only narrowed: where it was refused it is refused.
pub fn constraints_stay_refused()
    ensures { ConstraintsStayRefused }
{
    narrower_bounds_give_inner_spans();
    spans_are_sane();
    nodes_stand_for_pieces();
    handles_have_their_types();
    longer_lists_keep_what_is_known();
    read_values_are_in_domains();
}
