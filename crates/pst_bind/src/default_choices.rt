//! What the default binds come to in each instance, by object type.
ghost use Rattle.std.specs.Prelude.{◌≡◌, ◌++◌, ◌∷◌, ◌<◌, [], length, IfOk, IfSome, IsTrue, OnOk, slice_get};
ghost use Rattle.pst_bind.specs.Choices.{AreBehind, AreChoices, AreTypeChoices, default_choice};
ghost use Rattle.pst_bind.specs.Nearest.{default_row};

use crate::choices::{Choice, choice_of};
use crate::serving::nearest_default;
use pst_base::{NoMemory, Place};
use pst_bound_pools::{DefaultRows, InstanceTable};
use pst_tree::{PlaceKey, place_key};
use std::alloc::Global;
use std::collections::HashMap;

/// What the default binds come to for objects of one type.
#[derive(Drop)]
pub struct TypeChoices {
    /// The place of the type's name.
    pub place: Place,
    /// What they come to in each instance.
    pub choices: Vec<Choice>,
}

/// What the default binds come to, for the object types that were asked for.
#[derive(Drop)]
pub struct DefaultChoices {
    pub(crate) known: Vec<TypeChoices>,
    numbers: HashMap<PlaceKey, usize>,
}

/// Whether each instance stands behind the one that it stands in.
pub fn are_behind(table: &InstanceTable) -> bool
    ensures { IsTrue result → AreBehind table.now }
{
    let instances = table.as_slice();
    for at in 0..instances.len() {
        if let Some(parent) = instances[at].parent {
            if at <= parent as usize {
                return false;
            }
        }
    }
    true
}

// What was made of an earlier instance.
fn made_before(before: &[Choice], number: u32) -> Option<Choice>
    ensures { result ≡ slice_get before.now number }
{
    match before.get(number as usize) {
        Some(choice) => Some(*choice),
        None => None,
    }
}

// What the default binds of the instances above one come to, where it has none itself.
fn choice_above(
    _rows: &DefaultRows,
    table: &InstanceTable,
    _place: Place,
    number: u32,
    before: &[Choice],
) -> Option<Choice>
    requires within { number < length table.now }
    requires behind { AreBehind table.now }
    requires empty { default_row _rows.now _place number ≡ [] }
    requires before { AreChoices _rows.now table.now _place before.now }
    ensures { IfSome result (λ c. c ≡ default_choice _rows.now table.now _place number) }
{
    match table.parent_of(number) {
        None => Some(Choice::Nothing),
        Some(parent) => made_before(before, parent),
    }
}

// What the default binds come to in an instance, given the same of those before it.
fn choice_in(
    alloc: Global,
    rows: &DefaultRows,
    table: &InstanceTable,
    behind: bool,
    place: Place,
    number: u32,
    before: &[Choice],
) -> Result<Choice, NoMemory>
    requires within { number < length table.now }
    requires behind { IsTrue behind → AreBehind table.now }
    requires before { AreChoices rows.now table.now place before.now }
    ensures { IfOk result (λ c. c ≡ default_choice rows.now table.now place number) }
{
    if behind && rows.at(number, place).is_empty() {
        if let Some(choice) = choice_above(rows, table, place, number, before) {
            return Ok(choice);
        }
    }
    let above = table.with_those_above(alloc, number)?;
    Ok(choice_of(nearest_default(rows, above.as_slice(), place)))
}

// What the default binds come to in each instance for objects of a type.
fn choices_in(
    alloc: Global,
    rows: &DefaultRows,
    table: &InstanceTable,
    behind: bool,
    place: Place,
) -> Result<Vec<Choice>, NoMemory>
    requires { IsTrue behind → AreBehind table.now }
    ensures { IfOk result (λ choices. AreChoices rows.now table.now place choices.items) }
{
    let mut choices = Vec::new(alloc);
    for at in 0..table.as_slice().len() {
        let Ok(number) = u32::try_from(at) else {
            return Err(NoMemory);
        };
        let choice = choice_in(
            alloc,
            rows,
            table,
            behind,
            place,
            number,
            choices.as_slice(),
        )?;
        choices.push(choice)?;
    }
    Ok(choices)
}

impl DefaultChoices {
    /// Those of no object type.
    pub fn new(alloc: Global) -> DefaultChoices
        ensures { result.known.items ≡ [] }
    {
        DefaultChoices {
            known: Vec::new(alloc),
            numbers: HashMap::new(alloc),
        }
    }

    /// What the default binds come to for objects of a type, where it is known.
    pub fn find(
        &self,
        _rows: &DefaultRows,
        _table: &InstanceTable,
        place: Place,
    ) -> Option<&[Choice]>
        requires { AreTypeChoices _rows.now _table.now self.now.known.items }
        ensures { IfSome result (λ choices. AreChoices _rows.now _table.now place choices.now) }
    {
        let number = *self.numbers.get(&place_key(place))?;
        let found = self.known.as_slice().get(number)?;
        if found.place == place {
            return Some(found.choices.as_slice());
        }
        None
    }

    // Keeps what the default binds come to for objects of a type.
    fn keep(&mut self, found: TypeChoices) -> Result<(), NoMemory>
        ensures { OnOk result (self.new.known.items ≡ self.old.known.items ++ found ∷ []) }
    {
        self.numbers
            .insert(place_key(found.place), self.known.len())?;
        self.known.push(found)?;
        Ok(())
    }

    /// Finds what the default binds come to for objects of a type, where it isn't known.
    pub fn settle(
        &mut self,
        alloc: Global,
        rows: &DefaultRows,
        table: &InstanceTable,
        behind: bool,
        place: Place,
    ) -> Result<(), NoMemory>
        requires behind { IsTrue behind → AreBehind table.now }
        requires known { AreTypeChoices rows.now table.now self.old.known.items }
        ensures { OnOk result (AreTypeChoices rows.now table.now self.new.known.items) }
    {
        if self.find(rows, table, place).is_some() {
            return Ok(());
        }
        let choices = choices_in(alloc, rows, table, behind, place)?;
        self.keep(TypeChoices { place, choices })
    }
}
