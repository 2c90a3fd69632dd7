//! Laws of lists of choices that go on behind the sources.
ghost use Rattle.pst_read_slots.specs.Laws.{ListsBehindTheSources, SlotsBehindTheSources};

use pst_built::activities_fill_their_root;
use pst_slots::slots_are_placed;

/// A list of choices that reads the activity and the sources of a sound model, and perhaps more, for
/// a root that isn't abstract, reads a scenario that is read through. So each slot of each of its
/// constraints has a value, stands for nothing that ever has one, or is an open value whose place is
/// known.
pub fn lists_behind_the_sources()
    ensures through { ListsBehindTheSources }
    ensures slots { SlotsBehindTheSources }
{
    activities_fill_their_root();
    slots_are_placed();
}
