//! Whether two slots are the same.
ghost use Rattle.std.specs.Prelude.{◌≡◌};
ghost use Rattle.pst_terms.specs.Slots.{same_slot};
ghost use Rattle.pst_numbering.specs.Kept.{through, view_kept, view_own};

use crate::reading::{KeptSlot, OwnSlot};

// Whether two slots without handles are the same.
fn same_own(a: OwnSlot, b: OwnSlot) -> bool
    ensures { result ≡ same_slot (view_own a) (view_own b) }
{
    match (a, b) {
        (OwnSlot::Own { field: x }, OwnSlot::Own { field: y }) => x == y,
        (
            OwnSlot::Object {
                reference: r,
                field: x,
            },
            OwnSlot::Object {
                reference: s,
                field: y,
            },
        ) => r == s && x == y,
        (OwnSlot::First { reference: r }, OwnSlot::First { reference: s }) => r == s,
        (OwnSlot::ClaimId { claim: c }, OwnSlot::ClaimId { claim: d }) => c == d,
        (OwnSlot::ClaimField { claim: c, field: x }, OwnSlot::ClaimField { claim: d, field: y }) =>
            c == d && x == y,
        (OwnSlot::Prev { field: x }, OwnSlot::Prev { field: y }) => x == y,
        (OwnSlot::IsFirst, OwnSlot::IsFirst) => true,
        (OwnSlot::Id, OwnSlot::Id) => true,
        (OwnSlot::Index { level: k }, OwnSlot::Index { level: l }) => k == l,
        (OwnSlot::Local { local: k }, OwnSlot::Local { local: l }) => k == l,
        _ => false,
    }
}

// Whether two slots behind handles are the same.
fn same_behind(h: Option<u32>, a: OwnSlot, k: Option<u32>, b: OwnSlot) -> bool
    ensures { result ≡ same_slot (through h (view_own a)) (through k (view_own b)) }
{
    match (h, k) {
        (None, None) => same_own(a, b),
        (Some(h), Some(k)) => h == k && same_own(a, b),
        _ => false,
    }
}

/// Whether two slots are the same.
pub fn same_kept(a: KeptSlot, b: KeptSlot) -> bool
    ensures { result ≡ same_slot (view_kept a) (view_kept b) }
{
    a.outer == b.outer && same_behind(a.handle, a.own, b.handle, b.own)
}
