//! Names behind dots.
ghost use Rattle.std.specs.Prelude.{◌≡◌, ◌∷◌, [], Some, None, IfOk};
ghost use Rattle.pst_numbering.specs.Kept.{view_reading};
ghost use Rattle.pst_ast.specs.declared.referent.Referent.TheVariants as the_referent;
ghost use Rattle.pst_ast.specs.Sorts;
ghost use Rattle.pst_terms.specs.Readings as tree;
ghost use Rattle.pst_path_readings.specs.Behind.{claim_reading as of_claim, member_number, reference_reading as of_reference, replaced_reading as of_replaced};
ghost use Rattle.pst_path_readings.specs.Wrapped.{wrapped};
ghost use Rattle.pst_sources.specs.Shown.{sources_of};

use crate::fields::{FieldOf, field_reading, typed_field};
use crate::wrap::{Wrap, nothing};
use pst_ast::{Declaration, Referent, Sort};
use pst_base::NoMemory;
use pst_numbering::{OwnSlot, PathReading};
use pst_sources::Sources;
use pst_type_members::MemberSort;

// The number of a member of a type.
fn number(
    sources: &Sources<'_>,
    by: MemberSort,
    owner: &Declaration,
    member: &Declaration,
) -> Result<u32, NoMemory>
    ensures { IfOk result (λ n. n ≡ member_number (sources_of sources.now) by owner.now member.now) }
{
    let known = sources.known();
    known.members().number(known.alloc(), by, owner, member)
}

// A name behind a reference.
fn reference_reading(
    sources: &Sources<'_>,
    wrap: Wrap,
    owner: &Declaration,
    reference: &Declaration,
    last: &Referent,
) -> Result<PathReading, NoMemory>
    ensures { IfOk result (λ r. view_reading r ≡ tree.map_reading (wrapped wrap) (of_reference (sources_of sources.now) owner.now reference.now last.now)) }
{
    match last {
        Referent::Declared(field) => {
            let number = number(sources, MemberSort::Reference, owner, reference)?;
            typed_field(sources, wrap, FieldOf::Referenced(number), reference, field)
        }
        Referent::Initial(_) => {
            let reference = number(sources, MemberSort::Reference, owner, reference)?;
            Ok(wrap.slot(OwnSlot::First { reference }))
        }
        Referent::Previous(_) => Ok(nothing()),
        Referent::Number(_) => Ok(nothing()),
    }
}

// A name behind a claim.
fn claim_reading(
    sources: &Sources<'_>,
    wrap: Wrap,
    owner: &Declaration,
    claim: &Declaration,
    last: &Referent,
) -> Result<PathReading, NoMemory>
    ensures { IfOk result (λ r. view_reading r ≡ tree.map_reading (wrapped wrap) (of_claim (sources_of sources.now) owner.now claim.now last.now)) }
{
    match last {
        Referent::Declared(field) => {
            let number = number(sources, MemberSort::Claim, owner, claim)?;
            typed_field(sources, wrap, FieldOf::Claimed(number), claim, field)
        }
        Referent::Number(_) => {
            let claim = number(sources, MemberSort::Claim, owner, claim)?;
            Ok(wrap.slot(OwnSlot::ClaimId { claim }))
        }
        Referent::Initial(_) => Ok(nothing()),
        Referent::Previous(_) => Ok(nothing()),
    }
}

// A name behind a reference or claim.
#[tactic(auto, using(crate::proofs::Needing::reference_is, crate::proofs::Needing::claim_is))]
fn need_reading(
    sources: &Sources<'_>,
    wrap: Wrap,
    owner: &Declaration,
    need: &Declaration,
    last: &Referent,
) -> Result<PathReading, NoMemory>
    ensures { IfOk result (λ r. view_reading r ≡ tree.map_reading (wrapped wrap) (tree.need_reading (sources_of sources.now) owner.now need.now need.now.sort last.now)) }
{
    match need.sort {
        Sort::Reference { .. } => reference_reading(sources, wrap, owner, need, last),
        Sort::Claim { .. } => claim_reading(sources, wrap, owner, need, last),
        _ => Ok(nothing()),
    }
}

// A name right behind a handle of an action.
fn field_behind(
    sources: &Sources<'_>,
    wrap: Wrap,
    action: &Declaration,
    last: &Referent,
) -> Result<PathReading, NoMemory>
    ensures { IfOk result (λ r. view_reading r ≡ tree.map_reading (wrapped wrap) (tree.handle_reading (sources_of sources.now) (Some action.now) [] last.now)) }
{
    match last {
        Referent::Declared(field) => field_reading(sources, wrap, FieldOf::Itself, action, field),
        _ => Ok(nothing()),
    }
}

// A name behind a handle of an action and one of its members.
fn member_behind(
    sources: &Sources<'_>,
    wrap: Wrap,
    action: &Declaration,
    member: &Referent,
    last: &Referent,
) -> Result<PathReading, NoMemory>
    ensures { IfOk result (λ r. view_reading r ≡ tree.map_reading (wrapped wrap) (tree.handle_reading (sources_of sources.now) (Some action.now) (member.now ∷ []) last.now)) }
{
    match member {
        Referent::Declared(need) => need_reading(sources, wrap, action, need, last),
        _ => Ok(nothing()),
    }
}

// A name behind a handle, and behind those between.
fn handle_reading(
    sources: &Sources<'_>,
    wrap: Wrap,
    action: Option<Declaration>,
    between: &[Referent],
    last: &Referent,
) -> Result<PathReading, NoMemory>
    ensures { IfOk result (λ r. view_reading r ≡ tree.map_reading (wrapped wrap) (tree.handle_reading (sources_of sources.now) action between.now last.now)) }
{
    let Some(action) = action else {
        return Ok(nothing());
    };
    match between.split_first() {
        None => field_behind(sources, wrap, &action, last),
        Some((member, more)) => {
            if !more.is_empty() {
                return Ok(nothing());
            }
            member_behind(sources, wrap, &action, member, last)
        }
    }
}

// Whether it is a handle.
fn is_handle(sort: Sort) -> bool
    ensures { result ≡ Sorts.is_handle sort }
{
    matches!(sort, Sort::Handle { .. })
}

// A name behind what is declared, and behind those between.
#[tactic(auto, using(crate::proofs::Needing::behind_need))]
fn declared_behind(
    sources: &Sources<'_>,
    outer: bool,
    owner: &Declaration,
    head: &Declaration,
    between: &[Referent],
    last: &Referent,
) -> Result<PathReading, NoMemory>
    ensures { IfOk result (λ r. view_reading r ≡ tree.map_reading (wrapped (record { outer = outer; handle = None })) (tree.behind_reading (sources_of sources.now) owner.now (the_referent.Declared head.now) between.now last.now)) }
{
    if !is_handle(head.sort) {
        return need_reading(
            sources,
            Wrap {
                outer,
                handle: None,
            },
            owner,
            head,
            last,
        );
    }
    let number = number(sources, MemberSort::Handle, owner, head)?;
    let wrap = Wrap {
        outer,
        handle: Some(number),
    };
    handle_reading(
        sources,
        wrap,
        sources.known().index().type_of(head),
        between,
        last,
    )
}

// A field of the object that another replaces.
fn replaced_field(
    sources: &Sources<'_>,
    outer: bool,
    object: &Declaration,
    last: &Referent,
) -> Result<PathReading, NoMemory>
    ensures { IfOk result (λ r. view_reading r ≡ tree.map_reading (wrapped (record { outer = outer; handle = None })) (of_replaced (sources_of sources.now) object.now last.now)) }
{
    match last {
        Referent::Declared(field) => field_reading(
            sources,
            Wrap {
                outer,
                handle: None,
            },
            FieldOf::Replaced,
            object,
            field,
        ),
        _ => Ok(nothing()),
    }
}

/// A name behind a first one, and behind those between.
#[tactic(auto, using(crate::proofs::Needing::replaced_is))]
pub fn behind_reading(
    sources: &Sources<'_>,
    outer: bool,
    owner: &Declaration,
    head: &Referent,
    between: &[Referent],
    last: &Referent,
) -> Result<PathReading, NoMemory>
    ensures { IfOk result (λ r. view_reading r ≡ tree.map_reading (wrapped (record { outer = outer; handle = None })) (tree.behind_reading (sources_of sources.now) owner.now head.now between.now last.now)) }
{
    match head {
        Referent::Declared(declared) => {
            declared_behind(sources, outer, owner, declared, between, last)
        }
        Referent::Previous(object) => replaced_field(sources, outer, object, last),
        _ => Ok(nothing()),
    }
}
