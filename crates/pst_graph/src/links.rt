//! What references and claims of actions have to do with each other.
ghost use Rattle.std.specs.Prelude.{◌≡◌, ◌↔◌, ◌⊎◌, ◌<◌, ℕ, length, IsTrue};
ghost use Rattle.pst_graph.specs.Links.{HasUse, WritesInto, WritesUsed, Replaces, IsReplaced, ReadsReplaced, AreDisputed, Disputes, HasDispute, DisputesElsewhere, HasOwnDispute};

use pst_scen::{Claimed, Filled, Flow, Link};

/// Whether both are the same kind and direction.
pub(crate) fn is_flow(one: Flow, other: Flow) -> bool
    ensures { IsTrue result ↔ one ≡ other }
{
    one == other
}

/// Whether both links are the same.
pub(crate) fn is_link(one: Link, other: Link) -> bool
    ensures { IsTrue result ↔ one ≡ other }
{
    one == other
}

/// Whether it is a reference to a state pool.
pub(crate) fn is_state(flow: Flow) -> bool
    ensures { IsTrue result ↔ (flow ≡ Flow.StateIn) ⊎ (flow ≡ Flow.StateOut) }
{
    match flow {
        Flow::StateIn => true,
        Flow::StateOut => true,
        _ => false,
    }
}

/// Whether a reference uses the state pool.
fn has_use(references: &[Filled], pool: u32) -> bool
    ensures { IsTrue result ↔ HasUse references.now pool }
{
    for i in 0..references.len() {
        if references[i].pool == pool {
            if is_state(references[i].flow) {
                return true;
            }
        }
    }
    false
}

/// Whether the reference writes a state pool that one of the others uses.
fn writes_into(filled: &Filled, others: &[Filled]) -> bool
    ensures { IsTrue result ↔ WritesInto others.now filled.now }
{
    if !is_flow(filled.flow, Flow::StateOut) {
        return false;
    }
    has_use(others, filled.pool)
}

/// Whether one of the first references writes a state pool that one of the others uses.
pub(crate) fn writes_used(own: &[Filled], others: &[Filled]) -> bool
    ensures { IsTrue result ↔ WritesUsed own.now others.now }
{
    for i in 0..own.len() {
        if writes_into(&own[i], others) {
            return true;
        }
    }
    false
}

/// Whether a reference replaces the object that the given one reads.
fn replaces(references: &[Filled], reader: &Filled) -> bool
    ensures { IsTrue result ↔ Replaces references.now reader.now }
{
    for i in 0..references.len() {
        if is_flow(references[i].flow, Flow::StateOut) {
            if references[i].pool == reader.pool {
                if is_link(references[i].link, reader.link) {
                    return true;
                }
            }
        }
    }
    false
}

/// Whether the reference reads an object that one of the others replaces.
fn is_replaced(filled: &Filled, others: &[Filled]) -> bool
    ensures { IsTrue result ↔ IsReplaced others.now filled.now }
{
    if !is_flow(filled.flow, Flow::StateIn) {
        return false;
    }
    replaces(others, filled)
}

/// Whether one of the first references reads an object that one of the others replaces.
pub(crate) fn reads_replaced(own: &[Filled], others: &[Filled]) -> bool
    ensures { IsTrue result ↔ ReadsReplaced own.now others.now }
{
    for i in 0..own.len() {
        if is_replaced(&own[i], others) {
            return true;
        }
    }
    false
}

/// Whether both claims are of one instance, and at least one by lock.
fn are_disputed(one: &Claimed, other: &Claimed) -> bool
    ensures { IsTrue result ↔ AreDisputed one.now other.now }
{
    if one.pool != other.pool {
        return false;
    }
    if one.instance != other.instance {
        return false;
    }
    one.lock || other.lock
}

/// Whether a claim disputes the given one.
fn disputes(claims: &[Claimed], one: &Claimed) -> bool
    ensures { IsTrue result ↔ Disputes claims.now one.now }
{
    for i in 0..claims.len() {
        if are_disputed(one, &claims[i]) {
            return true;
        }
    }
    false
}

/// Whether one of the first claims is disputed by one of the others.
pub(crate) fn has_dispute(own: &[Claimed], others: &[Claimed]) -> bool
    ensures { IsTrue result ↔ HasDispute own.now others.now }
{
    for i in 0..own.len() {
        if disputes(others, &own[i]) {
            return true;
        }
    }
    false
}

/// Whether a claim of another place disputes the given one.
fn disputes_elsewhere(claims: &[Claimed], place: usize, one: &Claimed) -> bool
    ensures { IsTrue result ↔ DisputesElsewhere claims.now place one.now }
{
    for i in 0..claims.len() {
        if place != i {
            if are_disputed(one, &claims[i]) {
                return true;
            }
        }
    }
    false
}

/// Whether two of the claims dispute each other.
pub(crate) fn has_own_dispute(claims: &[Claimed]) -> bool
    ensures { IsTrue result ↔ HasOwnDispute claims.now }
{
    for i in 0..claims.len() {
        if disputes_elsewhere(claims, i, &claims[i]) {
            return true;
        }
    }
    false
}
