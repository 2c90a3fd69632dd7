//! The values of the items of an enum.
ghost use Rattle.std.specs.Prelude.{◌≡◌, ◌++◌, ◌&&◌, IfOk, OnOk, is_some, map};
ghost use Rattle.std.specs.Option.{option_to_list};
ghost use Rattle.pst_ast.specs.DeclarationView.{view_enum, view_next_enum_item};
ghost use Rattle.pst_ast.specs.Declarations.{next_item};
ghost use Rattle.pst_evaluate.specs.Kept.{known_in};
ghost use Rattle.pst_enum_values.specs.Gathered.{are_known, place_of_item, places_in, values_of};

use pst_ast::{EnumNode, NextEnumItem};
use pst_base::{NoMemory, Place};
use pst_evaluate::ItemValues;

// Adds the value of an item, and says whether it has one.
fn add_value(values: &ItemValues, found: &mut Vec<i64>, place: Place) -> Result<bool, NoMemory>
    ensures added { OnOk result (found.new.items ≡ found.old.items ++ option_to_list (known_in values.now place)) }
    ensures known { IfOk result (λ known. known ≡ is_some (known_in values.now place)) }
{
    match values.value_at(place) {
        Some(value) => {
            found.push(value)?;
            Ok(true)
        }
        None => Ok(false),
    }
}

// Adds the values of the items behind the first, and says whether each has one.
fn add_rest(
    values: &ItemValues,
    found: &mut Vec<i64>,
    items: &[NextEnumItem],
) -> Result<bool, NoMemory>
    ensures added { OnOk result (found.new.items ≡ found.old.items ++ values_of (known_in values.now) (map place_of_item (map next_item (map view_next_enum_item items.now)))) }
    ensures known { IfOk result (λ known. known ≡ are_known (known_in values.now) (map place_of_item (map next_item (map view_next_enum_item items.now)))) }
{
    let mut known = true;
    for next in items {
        let one = add_value(values, found, next.item.name.place)?;
        known = known && one;
    }
    Ok(known)
}

/// Adds the values of the items of an enum, and says whether each has one.
pub fn add_values(
    values: &ItemValues,
    found: &mut Vec<i64>,
    node: &EnumNode,
) -> Result<bool, NoMemory>
    ensures added { OnOk result (found.new.items ≡ found.old.items ++ values_of (known_in values.now) (places_in (view_enum node.now))) }
    ensures known { IfOk result (λ known. known ≡ are_known (known_in values.now) (places_in (view_enum node.now))) }
{
    let first = add_value(values, found, node.first.name.place)?;
    let rest = add_rest(values, found, node.rest.as_slice())?;
    Ok(first && rest)
}
