//! Finding what stands at a place.
ghost use Rattle.std.specs.Prelude.{◌≡◌, IfOk, map};
ghost use Rattle.std.specs.List.{find};
ghost use Rattle.std.specs.Option.{option_map};
ghost use Rattle.pst_ast.specs.DeclarationView.{view_action, view_function};
ghost use Rattle.pst_ast.specs.Sorts.{same_place};
ghost use Rattle.pst_type_rules.specs.Sites.{action_of, function_of};
ghost use Rattle.pst_site_lists.specs.Sited.{view_enum_site, view_field_site};

use pst_ast::{ActionNode, FunctionNode};
use pst_base::{NoMemory, Place};
use pst_places::PlaceList;
use pst_site_lists::{EnumSite, FieldSite};
use std::alloc::Global;

/// The places of the names of actions.
pub fn places_of_actions(alloc: Global, actions: &[&ActionNode]) -> Result<PlaceList, NoMemory>
    ensures { IfOk result (λ places. places ≡ map (λ a. a.now.name.place) actions.now) }
{
    let mut places = Vec::new(alloc);
    for action in actions {
        places.push(action.name.place)?;
    }
    PlaceList::new(alloc, places)
}

/// The places of the names of functions.
pub fn places_of_functions(
    alloc: Global,
    functions: &[&FunctionNode],
) -> Result<PlaceList, NoMemory>
    ensures { IfOk result (λ places. places ≡ map (λ f. f.now.name.place) functions.now) }
{
    let mut places = Vec::new(alloc);
    for function in functions {
        places.push(function.name.place)?;
    }
    PlaceList::new(alloc, places)
}

/// The places of the names of fields.
pub fn places_of_fields(alloc: Global, fields: &[FieldSite]) -> Result<PlaceList, NoMemory>
    ensures { IfOk result (λ places. places ≡ map (λ f. f.name.place) fields.now) }
{
    let mut places = Vec::new(alloc);
    for field in fields {
        places.push(field.name.place)?;
    }
    PlaceList::new(alloc, places)
}

/// The places of the names of enums.
pub fn places_of_enums(alloc: Global, enums: &[EnumSite]) -> Result<PlaceList, NoMemory>
    ensures { IfOk result (λ places. places ≡ map (λ e. e.node.now.name.place) enums.now) }
{
    let mut places = Vec::new(alloc);
    for site in enums {
        places.push(site.node.name.place)?;
    }
    PlaceList::new(alloc, places)
}

/// The action whose name stands at a place.
pub fn action_in<'a>(
    actions: &[&'a ActionNode],
    places: &PlaceList,
    place: Place,
) -> Option<&'a ActionNode>
    requires { places.now ≡ map (λ a. a.now.name.place) actions.now }
    ensures { option_map (λ a. action_of (view_action a.now)) result ≡ find (λ a. same_place a.name.place place) (map (λ a. action_of (view_action a.now)) actions.now) }
{
    match places.number(place) {
        None => None,
        Some(number) => actions.get(number).copied(),
    }
}

/// The function whose name stands at a place.
pub fn function_in<'a>(
    functions: &[&'a FunctionNode],
    places: &PlaceList,
    place: Place,
) -> Option<&'a FunctionNode>
    requires { places.now ≡ map (λ f. f.now.name.place) functions.now }
    ensures { option_map (λ f. function_of (view_function f.now)) result ≡ find (λ f. same_place f.name.place place) (map (λ f. function_of (view_function f.now)) functions.now) }
{
    match places.number(place) {
        None => None,
        Some(number) => functions.get(number).copied(),
    }
}

/// The field whose name stands at a place.
pub fn field_in<'s, 'a>(
    fields: &'s [FieldSite<'a>],
    places: &PlaceList,
    place: Place,
) -> Option<&'s FieldSite<'a>>
    requires { places.now ≡ map (λ f. f.name.place) fields.now }
    ensures { option_map (λ f. view_field_site f.now) result ≡ find (λ f. same_place f.name.place place) (map view_field_site fields.now) }
{
    match places.number(place) {
        None => None,
        Some(number) => fields.get(number),
    }
}

/// The enum whose name stands at a place.
pub fn enum_in<'a>(enums: &[EnumSite<'a>], places: &PlaceList, place: Place) -> Option<EnumSite<'a>>
    requires { places.now ≡ map (λ e. e.node.now.name.place) enums.now }
    ensures { option_map view_enum_site result ≡ find (λ e. same_place e.name.place place) (map view_enum_site enums.now) }
{
    match places.number(place) {
        None => None,
        Some(number) => enums.get(number).copied(),
    }
}
