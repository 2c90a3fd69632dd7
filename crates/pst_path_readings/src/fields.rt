//! Fields.
ghost use Rattle.std.specs.Prelude.{◌≡◌, ℕ, IfOk, map};
ghost use Rattle.pst_numbering.specs.Kept.{elements_of, view_kept, view_reading};
ghost use Rattle.pst_terms.specs.Fields.{counted};
ghost use Rattle.pst_terms.specs.Readings as tree;
ghost use Rattle.pst_path_readings.specs.Wrapped.{own_of, slot_of, wrapped};
ghost use Rattle.pst_sources.specs.Shown.{sources_of};

use crate::wrap::{Wrap, nothing};
use pst_ast::Declaration;
use pst_base::NoMemory;
use pst_numbering::{KeptSlot, OwnSlot, PathReading};
use pst_sources::Sources;

/// What a field is one of.
#[derive(Clone, Copy, PartialEq, Eq)]
pub enum FieldOf {
    /// The action or object itself.
    Itself,
    /// The object of the reference of that number.
    Referenced(u32),
    /// The resource of the claim of that number.
    Claimed(u32),
    /// The object that a state object replaces.
    Replaced,
}

// The slot of a field.
fn own_slot(of: FieldOf, field: u32) -> OwnSlot
    ensures { result ≡ own_of of field }
{
    match of {
        FieldOf::Itself => OwnSlot::Own { field },
        FieldOf::Referenced(reference) => OwnSlot::Object { reference, field },
        FieldOf::Claimed(claim) => OwnSlot::ClaimField { claim, field },
        FieldOf::Replaced => OwnSlot::Prev { field },
    }
}

// A field by its number, seen through others.
fn kept_field(wrap: Wrap, of: FieldOf, field: u32) -> KeptSlot
    ensures slot { view_kept result ≡ wrapped wrap (slot_of of field) }
    ensures elements { (n : ℕ) → elements_of result n ≡ map (wrapped wrap) (map (slot_of of) (counted field n)) }
{
    wrap.kept(own_slot(of, field))
}

// A field by its number, or the elements of an array by the number of the first.
fn slots_from(
    wrap: Wrap,
    of: FieldOf,
    number: u32,
    size: Option<u64>,
) -> Result<PathReading, NoMemory>
    ensures { IfOk result (λ r. view_reading r ≡ tree.map_reading (wrapped wrap) (tree.slots_from (slot_of of) number size)) }
{
    let first = kept_field(wrap, of, number);
    match size {
        None => Ok(PathReading::Slot(first)),
        Some(size) => match u32::try_from(size) {
            Ok(count) => Ok(PathReading::Elements { first, count }),
            Err(_) => Err(NoMemory),
        },
    }
}

/// A field of a type.
pub fn field_reading(
    sources: &Sources<'_>,
    wrap: Wrap,
    of: FieldOf,
    owner: &Declaration,
    field: &Declaration,
) -> Result<PathReading, NoMemory>
    ensures { IfOk result (λ r. view_reading r ≡ tree.map_reading (wrapped wrap) (tree.field_reading (sources_of sources.now) (slot_of of) owner.now field.now)) }
{
    let number = sources.field_number(owner, field)?;
    slots_from(wrap, of, number, sources.known().size_of(field))
}

/// A field of the object type of a reference or claim.
pub fn typed_field(
    sources: &Sources<'_>,
    wrap: Wrap,
    of: FieldOf,
    need: &Declaration,
    field: &Declaration,
) -> Result<PathReading, NoMemory>
    ensures { IfOk result (λ r. view_reading r ≡ tree.map_reading (wrapped wrap) (tree.typed_field (sources_of sources.now) (slot_of of) need.now field.now)) }
{
    match sources.known().index().type_of(need) {
        None => Ok(nothing()),
        Some(object) => field_reading(sources, wrap, of, &object, field),
    }
}
