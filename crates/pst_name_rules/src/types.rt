//! What the uses of type names, enum items and functions break.
ghost use Rattle.std.specs.Prelude.{◌≡◌, is_some};
ghost use Rattle.std.specs.Option.{option_or, option_and_then};
ghost use Rattle.pst_ast.specs.NameRules;
ghost use Rattle.pst_ast.specs.Sorts.{is_enum, is_item, is_function, is_action};
ghost use Rattle.pst_ast.specs.Lookups.{type_here, base_of, second_of, if_sort};
ghost use Rattle.pst_ast.specs.NameRules.{is_wanted};
ghost use Rattle.pst_walk_parts.specs.Shown.{view_wanted};

use pst_ast::{Declaration, Finding, Name, Scope, Sort, TypeName};
use pst_base::Place;
use pst_index::Index;
use pst_walk_parts::Wanted;

// Whether a sort is the one that is asked for.
fn passes(wanted: Wanted, sort: Sort) -> bool
    ensures { result ≡ is_wanted (view_wanted wanted) sort }
{
    match wanted {
        Wanted::Component => matches!(sort, Sort::Component),
        Wanted::Action => matches!(sort, Sort::Action { .. }),
        Wanted::Object => matches!(sort, Sort::Object { .. }),
        Wanted::Enumeration => matches!(sort, Sort::Enumeration),
    }
}

// Whether a declaration is there, and of the sort that is asked for.
fn is_so(wanted: Wanted, found: Option<Declaration>) -> bool
    ensures { result ≡ NameRules.is_so (is_wanted (view_wanted wanted)) found }
{
    match found {
        Some(declaration) => passes(wanted, declaration.sort),
        None => false,
    }
}

/// A breach of a rule at a place, unless something holds.
pub fn unless(good: bool, place: Place, rule: u8) -> Option<Finding>
    ensures { result ≡ NameRules.unless good place rule }
{
    if good {
        None
    } else {
        Some(Finding { place, rule })
    }
}

/// Rule 2 at a type name: it stands for no such type, or the component before it for no component.
pub fn type_finding(
    index: &Index,
    component: Option<Place>,
    wanted: Wanted,
    first: Name,
    second: Option<Name>,
) -> Option<Finding>
    ensures { result ≡ NameRules.type_finding index.now component (is_wanted (view_wanted wanted)) first second }
{
    let Some(second) = second else {
        return unless(
            is_so(wanted, index.type_here(component, first.id)),
            first.place,
            2,
        );
    };
    if index.component_named(component, first).is_none() {
        return Some(Finding {
            place: first.place,
            rule: 2,
        });
    }
    unless(
        is_so(wanted, index.type_by(component, first, Some(second))),
        second.place,
        2,
    )
}

// The enum of an item that is written with it: its finding.
fn enum_finding(
    index: &Index,
    component: Option<Place>,
    outer: Option<Name>,
    enum_: Name,
) -> Option<Finding>
    ensures { result ≡ NameRules.enum_finding index.now component outer enum_ }
{
    match outer {
        None => type_finding(index, component, Wanted::Enumeration, enum_, None),
        Some(outer) => type_finding(index, component, Wanted::Enumeration, outer, Some(enum_)),
    }
}

// It, where it is an enum.
fn if_enum(found: Option<Declaration>) -> Option<Declaration>
    ensures { result ≡ option_and_then (if_sort is_enum) found }
{
    match found {
        Some(declaration) if declaration.sort == Sort::Enumeration => Some(declaration),
        _ => None,
    }
}

/// The enum of an item that is written with it.
pub fn enum_by(
    index: &Index,
    component: Option<Place>,
    outer: Option<Name>,
    enum_: Name,
) -> Option<Declaration>
    ensures { result ≡ NameRules.enum_by index.now component outer enum_ }
{
    match outer {
        None => if_enum(index.type_by(component, enum_, None)),
        Some(outer) => if_enum(index.type_by(component, outer, Some(enum_))),
    }
}

/// An item that is written with its enum.
pub fn item_by(
    index: &Index,
    component: Option<Place>,
    outer: Option<Name>,
    enum_: Name,
    item: Name,
) -> Option<Declaration>
    ensures { result ≡ NameRules.item_by index.now component outer enum_ item }
{
    let found = enum_by(index, component, outer, enum_)?;
    index.look_up(Scope::Part(found.name.place), item.id)
}

/// Rule 2 at the enum, or rule 3 at the item of `E::A` or `C::E::A`.
pub fn item_finding(
    index: &Index,
    component: Option<Place>,
    outer: Option<Name>,
    enum_: Name,
    item: Name,
) -> Option<Finding>
    ensures { result ≡ option_or (NameRules.enum_finding index.now component outer enum_) (NameRules.unless (NameRules.is_so is_item (NameRules.item_by index.now component outer enum_ item)) item.place 3) }
{
    let wrong = enum_finding(index, component, outer, enum_);
    if wrong.is_some() {
        return wrong;
    }
    let good = match item_by(index, component, outer, enum_, item) {
        Some(found) => matches!(found.sort, Sort::Item { .. }),
        None => false,
    };
    unless(good, item.place, 3)
}

// The second name of a type name.
fn second_name(name: &TypeName) -> Option<Name>
    ensures { result ≡ second_of name.now }
{
    match name.second {
        Some(second) => Some(second.name),
        None => None,
    }
}

/// Rule 2 at the base of an action.
pub fn base_finding(index: &Index, action: &Declaration, name: &TypeName) -> Option<Finding>
    ensures { result ≡ option_or (NameRules.type_finding index.now action.now.inside is_action name.now.first (second_of name.now)) (NameRules.unless (is_some (base_of index.now action.now)) (NameRules.last_name name.now).place 2) }
{
    let second = second_name(name);
    let wrong = type_finding(index, action.inside, Wanted::Action, name.first, second);
    if wrong.is_some() {
        return wrong;
    }
    let last = match second {
        Some(second) => second,
        None => name.first,
    };
    unless(index.base_of(action).is_some(), last.place, 2)
}

/// Rule 3 at the function of a call.
pub fn calls_finding(index: &Index, component: Option<Place>, name: Name) -> Option<Finding>
    ensures { result ≡ NameRules.unless (NameRules.is_so is_function (type_here index.now component name.id)) name.place 3 }
{
    let good = match index.type_here(component, name.id) {
        Some(found) => found.sort == Sort::Function,
        None => false,
    };
    unless(good, name.place, 3)
}
