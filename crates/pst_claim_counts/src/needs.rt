//! How many instances claims need.
ghost use Rattle.std.specs.Prelude.{◌≡◌, ◌≢◌, ◌≤◌, ◌<◌, ◌+◌, ◌⊎◌, ℕ, true, false, length, get_or, Some, slice_get, IfOk, IfSome};
ghost use Rattle.pst_scen.specs.declared.scenario.Scenario.{Scenario as TheScenario};
ghost use Rattle.pst_claim_counts.specs.Needs.{no_need, IsNeedOf, SlotsMeet, AreOrdered, AreNeeds, IsOwn};

use pst_base::NoMemory;
use pst_claim_rivals::OpenClaim;
use std::alloc::Global;

/// Of claims of which each two are rivals, how many there are: of locks alone, and at all.
#[derive(Clone, Copy, Debug, PartialEq, Eq)]
pub(crate) struct Need {
    /// Locks alone.
    pub(crate) locks: u32,
    /// With one that shares, if there is one beside the locks.
    pub(crate) all: u32,
}

// The sum, or the greatest number.
fn sum(one: u32, other: u32) -> u32
    ensures { result ≤ one + other }
{
    one.saturating_add(other)
}

/// Of claims that are all rivals of others.
pub(crate) fn joined(one: Need, other: Need) -> Need
    ensures locks { result.locks ≤ one.locks + other.locks }
    ensures all { (result.all ≤ one.locks + other.all) ⊎ (result.all ≤ one.all + other.locks) }
{
    let locks = sum(one.locks, other.locks);
    let left = sum(one.locks, other.all);
    let right = sum(one.all, other.locks);
    if left < right {
        return Need { locks, all: right };
    }
    Need { locks, all: left }
}

// The greater number.
fn greatest(one: u32, other: u32) -> u32
    ensures { (result ≡ one) ⊎ (result ≡ other) }
{
    if one < other {
        return other;
    }
    one
}

/// Of claims that have nothing to do with others.
pub(crate) fn greater(one: Need, other: Need) -> Need
    ensures locks { (result.locks ≡ one.locks) ⊎ (result.locks ≡ other.locks) }
    ensures all { (result.all ≡ one.all) ⊎ (result.all ≡ other.all) }
{
    Need {
        locks: greatest(one.locks, other.locks),
        all: greatest(one.all, other.all),
    }
}

// Of one claim.
fn need_of(lock: bool) -> Need
    ensures { IsNeedOf lock result }
{
    if lock {
        return Need { locks: 1, all: 1 };
    }
    Need { locks: 0, all: 1 }
}

// Whether that pool serves the claim.
fn is_on(claim: &OpenClaim, pool: u32) -> bool
    ensures { result ≡ true → claim.now.pool ≡ Some pool }
{
    match claim.pool {
        None => false,
        Some(other) => other == pool,
    }
}

// The slot of an action.
fn slot_of(slots: &[Option<u32>], act: u32) -> Option<usize>
    ensures { IfSome result (λ n. slice_get slots.now act ≡ Some (Some n)) }
{
    match slots.get(act as usize) {
        None => None,
        Some(None) => None,
        Some(Some(slot)) => Some(*slot as usize),
    }
}

/// The need of that number.
pub(crate) fn need_at(needs: &[Need], n: usize) -> Need
    requires { n < length needs.now }
    ensures { result ≡ get_or needs.now n no_need }
{
    needs[n]
}

/// Changes the need of that number.
pub(crate) fn put(needs: &mut Vec<Need>, n: usize, need: Need)
    requires { n < length needs.old.items }
    ensures many { length needs.new.items ≡ length needs.old.items }
    ensures at { get_or needs.new.items n no_need ≡ need }
    ensures others { (k : ℕ) → k ≢ n → get_or needs.new.items k no_need ≡ get_or needs.old.items k no_need }
{
    needs[n] = need;
}

// The claim of that number.
fn claim_at(claims: &[OpenClaim], place: usize) -> OpenClaim
    requires { place < length claims.now }
    ensures { slice_get claims.now place ≡ Some result }
{
    claims[place]
}

// Adds a claim to the slot of its action.
fn add_own(
    needs: &mut Vec<Need>,
    slots: &[Option<u32>],
    claims: &[OpenClaim],
    place: usize,
    pool: u32,
)
    requires ordered { AreOrdered claims.now }
    requires place_in { place < length claims.now }
    ensures many { length needs.new.items ≡ length needs.old.items }
    ensures own { (s : TheScenario) → SlotsMeet s slots.now → AreNeeds s (IsOwn slots.now claims.now pool place) needs.old.items → AreNeeds s (IsOwn slots.now claims.now pool (place + 1)) needs.new.items }
{
    let claim = claim_at(claims, place);
    if !is_on(&claim, pool) {
        return;
    }
    let Some(slot) = slot_of(slots, claim.act) else {
        return;
    };
    if slot >= needs.len() {
        return;
    }
    let need = joined(need_at(needs.as_slice(), slot), need_of(claim.lock));
    put(needs, slot, need);
}

/// For each slot what the claims on the pool need of the actions that have it. Actions of one slot start together, or are
/// one.
pub(crate) fn own_needs(
    alloc: Global,
    slots: &[Option<u32>],
    count: usize,
    claims: &[OpenClaim],
    pool: u32,
) -> Result<Vec<Need>, NoMemory>
    requires { AreOrdered claims.now }
    ensures many { IfOk result (λ needs. length needs.items ≡ count) }
    ensures own { IfOk result (λ needs. (s : TheScenario) → SlotsMeet s slots.now → AreNeeds s (IsOwn slots.now claims.now pool (length claims.now)) needs.items) }
{
    let mut needs = vec![in alloc; Need { locks: 0, all: 0 }; count]?;
    for place in 0..claims.len() {
        add_own(&mut needs, slots, claims, place, pool);
    }
    Ok(needs)
}

/// A slot that needs more than so many.
pub(crate) fn exceeding(needs: &[Need], size: u32) -> Option<usize>
    ensures { IfSome result (λ n. (n < length needs.now) × (size < (get_or needs.now n no_need).all)) }
{
    for n in 0..needs.len() {
        if size < needs[n].all {
            return Some(n);
        }
    }
    None
}
