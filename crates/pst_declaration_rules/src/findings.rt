//! What single declarations break.
ghost use Rattle.std.specs.Prelude.{◌≡◌, IfOk, None};
ghost use Rattle.pst_ast.specs.Sorts;
ghost use Rattle.pst_name_rules.specs.Leasts.{least_at};
ghost use Rattle.pst_declaration_rules.specs.Findings;
ghost use Rattle.pst_declaration_rules.specs.Judged.{IsJudged, IsOwnFinding, least_finding};
ghost use Rattle.pst_declaration_rules.specs.Tallied.{AreKnown, AreTallied};

use crate::counted::{Kind, over};
use crate::grouped::group_at;
use crate::member::Member;
use crate::shape::{Shape, shape_at};
use crate::sources::TypeSources;
use crate::tally::{Tally, start_of, with_own};
use pst_ast::{Declaration, Finding, ObjectWord, Sort, TypeName};
use pst_base::{NoMemory, Place};
use pst_index::Index;
use pst_name_rules::earlier;

// Whether it is a resource.
fn is_resource(sort: Sort) -> bool
    ensures { result ≡ Sorts.is_resource sort }
{
    match sort {
        Sort::Object { word } => match word {
            ObjectWord::Resource => true,
            _ => false,
        },
        _ => false,
    }
}

// Rule 15 at a type name, unless the type is a resource or not, as is wanted.
fn unless_resource(wanted: bool, name: TypeName, found: Option<Declaration>) -> Option<Finding>
    ensures { result ≡ Findings.unless_resource wanted name found }
{
    let found = found?;
    if is_resource(found.sort) == wanted {
        return None;
    }
    Some(Finding {
        place: name.first.place,
        rule: 15,
    })
}

// A reference of a resource, or a claim of something else.
fn resource_finding(index: &Index, declaration: &Declaration) -> Option<Finding>
    ensures { result ≡ Findings.resource_finding index.now declaration.now }
{
    match declaration.sort {
        Sort::Reference { of, .. } => unless_resource(false, of, index.type_of(declaration)),
        Sort::Claim { of } => unless_resource(true, of, index.type_of(declaration)),
        _ => None,
    }
}

// Whether there is one.
fn is_positive(count: Option<u64>) -> bool
    ensures { result ≡ Findings.is_positive count }
{
    match count {
        None => false,
        Some(count) => count > 0,
    }
}

// Two activities, two bodies or one of each, or an activity and a reference or claim.
fn activity_finding(place: Place, all: &Tally) -> Option<Finding>
    ensures { result ≡ Findings.activity_finding place all.now }
{
    if all.twofold || (all.compound && (is_positive(all.references) || is_positive(all.claims))) {
        return Some(Finding { place, rule: 16 });
    }
    None
}

// The least of what a declaration breaks.
#[tactic(auto, unfolding(crate::specs::Findings::findings))]
fn finding_by(
    index: &Index,
    declaration: &Declaration,
    start: &Tally,
    own: &[Member],
    locals: &[Member],
    shape: Option<Shape>,
) -> Option<Finding>
    ensures { result ≡ least_at (λ o. o) (Findings.findings index.now declaration.now start.now own.now locals.now shape) None }
{
    let mut least = over(Kind::Item, Some(0), own);
    least = earlier(least, over(Kind::Parameter, Some(0), own));
    least = earlier(least, over(Kind::Local, Some(0), locals));
    least = earlier(least, over(Kind::Reference, start.references, own));
    least = earlier(least, over(Kind::Claim, start.claims, own));
    least = earlier(least, over(Kind::Field, start.fields, own));
    least = earlier(least, resource_finding(index, declaration));
    let all = with_own(start, own, shape);
    earlier(least, activity_finding(declaration.name.place, &all))
}

// The same, given the counts of all types.
fn finding_of(
    known: &TypeSources,
    tallies: &[Option<Tally>],
    declaration: &Declaration,
) -> Result<Option<Finding>, NoMemory>
    requires known { AreKnown known.now }
    requires tallied { AreTallied known.now tallies.now }
    ensures { IfOk result (IsOwnFinding known.now declaration.now) }
{
    let Some(start) = start_of(known, tallies, declaration) else {
        return Err(NoMemory);
    };
    let place = declaration.name.place;
    let own = group_at(known.scopes, place);
    let locals = group_at(known.texts, place);
    let shape = shape_at(known.sites, place);
    Ok(finding_by(known.index, declaration, &start, own, locals, shape))
}

/// The least of what all declarations break.
pub fn least_of_all(
    known: &TypeSources,
    tallies: &[Option<Tally>],
) -> Result<Option<Finding>, NoMemory>
    requires known { AreKnown known.now }
    requires tallied { AreTallied known.now tallies.now }
    ensures { IfOk result (IsJudged known.now known.now.index.now) }
{
    pst_base::places_are_ordered();
    let mut least = None;
    for declaration in known.index.as_slice() {
        least = earlier(least, finding_of(known, tallies, declaration)?);
    }
    Ok(least)
}
