//! Kinds of references, and links.
ghost use Rattle.std.specs.Prelude.{◌≡◌, ◌&&◌, nat_eq};
ghost use Rattle.pst_legal.specs.Supplied.{is_need, is_source_for};
ghost use Rattle.pst_legal.specs.SupplyReading.{is_state, is_stream, same_link};
ghost use Rattle.pst_scen.specs.declared.act.Link.TheVariants as link;

use crate::spot::Spot;
use pst_pool_sources::is_source_for;
use pst_scen::{Flow, Link};

// Whether a reference of this kind wants a source.
pub(crate) fn is_need(flow: Flow) -> bool
    ensures { result ≡ is_need flow }
{
    match flow {
        Flow::BufferOut => false,
        _ => true,
    }
}

// Whether it is the output or the input of a state.
pub(crate) fn is_state(flow: Flow) -> bool
    ensures { result ≡ is_state flow }
{
    match flow {
        Flow::StateIn => true,
        Flow::StateOut => true,
        _ => false,
    }
}

// Whether it is an end of a stream.
pub(crate) fn is_stream(flow: Flow) -> bool
    ensures { result ≡ is_stream flow }
{
    match flow {
        Flow::StreamIn => true,
        Flow::StreamOut => true,
        _ => false,
    }
}

// Whether the second may be the source of the first, whatever they are linked to.
pub(crate) fn fits(need: &Spot, pool: u32, flow: Flow) -> bool
    ensures { result ≡ (is_source_for need.now.flow flow && nat_eq pool need.now.pool) }
{
    is_source_for(need.flow, flow) && pool == need.pool
}

// Whether nothing is linked.
pub(crate) fn is_nothing(to: Link) -> bool
    ensures { result ≡ same_link to link.Nothing }
{
    match to {
        Link::Nothing => true,
        _ => false,
    }
}

// Whether the first object is linked.
pub(crate) fn is_initial(to: Link) -> bool
    ensures { result ≡ same_link to link.Initial }
{
    match to {
        Link::Initial => true,
        _ => false,
    }
}

// Whether this reference is linked.
pub(crate) fn is_to(to: Link, act: usize, reference: usize) -> bool
    ensures { result ≡ same_link to (link.Act act reference) }
{
    match to {
        Link::Act {
            act: other,
            reference: end,
        } => other as usize == act && end as usize == reference,
        _ => false,
    }
}
