//! What a path of names with dots between them stands for.
ghost use Rattle.std.specs.Prelude.{◌≡◌, ◌++◌, ◌∷◌, [], IfOk};
ghost use Rattle.pst_ast.specs.Paths;
ghost use Rattle.pst_index.specs.Fitting.{fits_of};

use crate::Index;
use crate::ends::{
    PathFor, fits, is_handle, is_handle_referent, is_head, is_last, is_misindexed, is_need_referent,
};
use crate::values::stands_for;
use crate::words::{is_state, is_text};
use pst_ast::{Checked, Declaration, Environment, PathPart, PathReferent, Referent, Sort};
use pst_base::{Items, NameId, Names, NoMemory, Place};
use std::alloc::Global;

// `initial` behind a reference to a state, `instance_id` behind a claim.
fn word_behind(names: &Names, head: Sort, object: &Declaration, name: NameId) -> Option<Referent>
    ensures { result ≡ Paths.word_behind names.now head object.now name }
{
    match head {
        Sort::Reference { .. } if is_state(object.sort) && is_text(names, "initial", name) => {
            Some(Referent::Initial(*object))
        }
        Sort::Claim { .. } if is_text(names, "instance_id", name) => {
            Some(Referent::Number(*object))
        }
        _ => None,
    }
}

// A member of the action behind a handle; a field, or one of those words, behind a reference or
// claim.
fn member_behind(
    index: &Index,
    names: &Names,
    head: Sort,
    type_: &Declaration,
    name: NameId,
) -> Option<Referent>
    ensures { result ≡ Paths.member_behind index.now names.now head type_.now name }
{
    if is_handle(head) {
        return index.member_of(type_, name).map(Referent::Declared);
    }
    match index.field_of(type_, name) {
        Some(field) => Some(Referent::Declared(field)),
        None => word_behind(names, head, type_, name),
    }
}

// `instance_id` behind a claim whose type name stands for no type of objects.
fn untyped_behind(names: &Names, head: &Declaration, name: NameId) -> Option<Referent>
    ensures { result ≡ Paths.untyped_behind names.now head.now name }
{
    match head.sort {
        Sort::Claim { .. } if is_text(names, "instance_id", name) => Some(Referent::Number(*head)),
        _ => None,
    }
}

// What stands behind a name and a dot.
fn named_behind(index: &Index, names: &Names, head: &Referent, name: NameId) -> Option<Referent>
    ensures { result ≡ Paths.named_behind index.now names.now head.now name }
{
    match head {
        Referent::Declared(declaration) => match index.type_of(declaration) {
            Some(type_) => member_behind(index, names, declaration.sort, &type_, name),
            None => untyped_behind(names, declaration, name),
        },
        Referent::Previous(object) => index.field_of(object, name).map(Referent::Declared),
        _ => None,
    }
}

// The name behind the last dot: its index first, then what may stand there.
fn last_behind(
    what: PathFor,
    before: Items<Referent>,
    part: PathPart,
    found: Option<Referent>,
) -> Checked<PathReferent>
    ensures { result ≡ Paths.last_behind (fits_of what) before part found }
{
    let place = part.name.place;
    let Some(last) = found else {
        return Checked::Breaks { place, rule: 6 };
    };
    if is_misindexed(what, &last, part.index) {
        return Checked::Breaks { place, rule: 3 };
    }
    if is_last(&last) {
        Checked::Is(PathReferent { before, last })
    } else {
        Checked::Breaks { place, rule: 6 }
    }
}

// A name between two dots: its index first, then what may stand there.
fn between(
    head: &Referent,
    part: PathPart,
    next: Place,
    found: Option<Referent>,
) -> Checked<Referent>
    ensures { result ≡ Paths.between head.now part next found }
{
    let place = part.name.place;
    let Some(referent) = found else {
        return Checked::Breaks { place, rule: 6 };
    };
    if is_misindexed(PathFor::Value, &referent, part.index) {
        return Checked::Breaks { place, rule: 3 };
    }
    if is_last(&referent) {
        return Checked::Breaks {
            place: next,
            rule: 6,
        };
    }
    if is_handle_referent(head) && is_need_referent(&referent) {
        Checked::Is(referent)
    } else {
        Checked::Breaks { place, rule: 6 }
    }
}

// A name without dots.
fn alone(
    index: &Index,
    what: PathFor,
    part: PathPart,
    found: Option<Referent>,
    none: Items<Referent>,
) -> Checked<PathReferent>
    requires { none ≡ [] }
    ensures { result ≡ Paths.alone index.now (fits_of what) part found }
{
    let place = part.name.place;
    match found {
        Some(last) if fits(what, &last, part.index) => {
            if is_ambiguous(index, &last) {
                Checked::Breaks { place, rule: 4 }
            } else {
                Checked::Is(PathReferent { before: none, last })
            }
        }
        _ => Checked::Breaks { place, rule: 3 },
    }
}

/// Whether it is an item of which another enum of its level has the name too.
pub fn is_ambiguous(index: &Index, referent: &Referent) -> bool
    ensures { result ≡ Paths.is_ambiguous index.now referent.now }
{
    match referent {
        Referent::Declared(declaration) => index.is_doubled(declaration),
        _ => false,
    }
}

// A name before the first dot.
fn first_of(part: PathPart, found: Option<Referent>) -> Checked<Referent>
    ensures { result ≡ Paths.first_of part found }
{
    match found {
        Some(referent) if is_head(&referent) && !part.index => Checked::Is(referent),
        _ => Checked::Breaks {
            place: part.name.place,
            rule: 3,
        },
    }
}

// The names behind a head, of which no name is wrong so far.
fn behind(
    alloc: Global,
    index: &Index,
    names: &Names,
    what: PathFor,
    first: Referent,
    second: PathPart,
    rest: &[PathPart],
) -> Result<Checked<PathReferent>, NoMemory>
    ensures { IfOk result (λ r. r ≡ Paths.behind index.now names.now (fits_of what) (first ∷ []) first second rest.now) }
{
    let mut before = Vec::new(alloc);
    before.push(first)?;
    let mut head = first;
    let mut part = second;
    for next in rest {
        let found = named_behind(index, names, &head, part.name.id);
        match between(&head, part, next.name.place, found) {
            Checked::Breaks { place, rule } => return Ok(Checked::Breaks { place, rule }),
            Checked::Is(referent) => {
                before.push(referent)?;
                head = referent;
                part = *next;
            }
        }
    }
    let found = named_behind(index, names, &head, part.name.id);
    Ok(last_behind(what, Items::from_vec(before), part, found))
}

/// What a path stands for, of a first name and those behind dots, or its first name that is wrong.
#[tactic(auto, unfolding(pst_ast::specs::Paths::read_path))]
pub fn read_path(
    alloc: Global,
    index: &Index,
    names: &Names,
    at: &Environment,
    what: PathFor,
    first: PathPart,
    rest: &[PathPart],
) -> Result<Checked<PathReferent>, NoMemory>
    ensures { IfOk result (λ r. r ≡ Paths.read_path index.now names.now at.now (fits_of what) first rest.now) }
{
    let found = stands_for(index, names, at, first.name.id);
    let Some((second, more)) = rest.split_first() else {
        return Ok(alone(index, what, first, found, Items::empty(alloc)));
    };
    match first_of(first, found) {
        Checked::Breaks { place, rule } => Ok(Checked::Breaks { place, rule }),
        Checked::Is(head) => behind(alloc, index, names, what, head, *second, more),
    }
}
