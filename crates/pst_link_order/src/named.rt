//! What the references of actions name.
ghost use Rattle.std.specs.Prelude.{◌≡◌, ◌≢◌, ◌⊎◌, ◌↔◌, ◌<◌, Some, true, IfSome, IsTrue};
ghost use Rattle.pst_scen.specs.Flows.{LeadsTo};
ghost use Rattle.pst_scen.specs.Scenarios.{reference_at};
ghost use Rattle.pst_link_order.specs.Reasons.{IsKindOf};

use pst_scen::{Filled, Flow, Link, Scenario};

/// The references of an action.
pub(crate) fn references_of(scenario: &Scenario, act: u32) -> &[Filled] {
    match scenario.actions.as_slice().get(act as usize) {
        Some(act) => act.references.as_slice(),
        None => &[],
    }
}

/// A reference of an action.
pub(crate) fn reference_of(scenario: &Scenario, act: u32, reference: usize) -> Option<&Filled>
    ensures { IfSome result (λ filled. reference_at scenario.now.actions act reference ≡ Some filled.now) }
{
    let act = scenario.actions.as_slice().get(act as usize)?;
    act.references.as_slice().get(reference)
}

/// Another action to which the reference is linked.
pub(crate) fn other_of(filled: &Filled, act: u32, count: u32) -> Option<u32>
    ensures below { IfSome result (λ other. other < count) }
    ensures different { IfSome result (λ other. other ≢ act) }
    ensures leads { IfSome result (LeadsTo filled.now.link) }
{
    match filled.link {
        Link::Act { act: other, .. } => {
            if other < count && other != act {
                Some(other)
            } else {
                None
            }
        }
        _ => None,
    }
}

/// Whether what the reference is linked to comes before its action, or starts with it: as a buffer's input does, or
/// a stream's.
pub(crate) fn kind_of(flow: Flow) -> Option<Flow>
    ensures { IfSome result (IsKindOf flow) }
{
    match flow {
        Flow::BufferIn => Some(Flow::BufferIn),
        Flow::StateIn => Some(Flow::BufferIn),
        Flow::StateOut => Some(Flow::BufferIn),
        Flow::StreamIn => Some(Flow::StreamIn),
        Flow::StreamOut => Some(Flow::StreamIn),
        Flow::BufferOut => None,
    }
}

/// Whether both links are the same.
pub(crate) fn is_link(one: Link, other: Link) -> bool
    ensures { IsTrue result ↔ one ≡ other }
{
    one == other
}

/// Whether it reads a state pool.
pub(crate) fn is_read(flow: Flow) -> bool
    ensures { result ≡ true → flow ≡ Flow.StateIn }
{
    match flow {
        Flow::StateIn => true,
        _ => false,
    }
}

/// Whether it writes a state pool.
pub(crate) fn is_write(flow: Flow) -> bool
    ensures { result ≡ true → flow ≡ Flow.StateOut }
{
    match flow {
        Flow::StateOut => true,
        _ => false,
    }
}

/// Whether it reads or writes a state pool.
pub(crate) fn is_state(flow: Flow) -> bool
    ensures { result ≡ true → (flow ≡ Flow.StateIn) ⊎ (flow ≡ Flow.StateOut) }
{
    match flow {
        Flow::StateIn => true,
        Flow::StateOut => true,
        _ => false,
    }
}
