//! What is declared, as numbers.
ghost use Rattle.std.specs.Prelude.{◌≡◌, List, Some, IfOk, OnOk, position};
ghost use Rattle.std.specs.HashMap.{get};
ghost use Rattle.pst_ast.specs.declared.scope_declaration.Declaration.{Declaration};
ghost use Rattle.pst_ast.specs.Scopes;
ghost use Rattle.pst_ast.specs.Sorts.{same_place};
ghost use Rattle.pst_numbers.specs.NumberKeys.{place_key as key_of, same_place_key};
ghost use Rattle.pst_numbers.specs.Numbered.{AreNumbers};
ghost use Rattle.pst_numbers.specs.Ranked.{or_new};

use crate::keys::{MemberKey, PlaceKey, member_key, place_key};
use crate::listed::sort_of;
use crate::ranking::ranks;
use pst_ast::{Declaration, Referent, TypeEntry};
use pst_base::{NoMemory, Place};
use std::alloc::Global;
use std::collections::HashMap;

// Keeps the number of a type, where its place has none yet.
fn keep_number(
    found: &mut HashMap<PlaceKey, u32>,
    place: PlaceKey,
    number: u32,
) -> Result<(), NoMemory>
    ensures { OnOk result ((q : PlaceKey) → get same_place_key found.new q ≡ or_new (get same_place_key found.old q) (same_place_key q place) number) }
{
    if !found.contains_key(&place) {
        found.insert(place, number)?;
    }
    Ok(())
}

// The number of each type by its place: of several at one place the first's.
fn type_numbers(alloc: Global, entries: &[TypeEntry]) -> Result<HashMap<PlaceKey, u32>, NoMemory>
    ensures { IfOk result (λ found. (place : Place) → get same_place_key found (key_of place) ≡ position (λ e. same_place e.place place) entries.now) }
{
    let mut found = HashMap::new(alloc);
    let mut number: u32 = 0;
    for entry in entries {
        keep_number(&mut found, place_key(entry.place), number)?;
        let Some(next) = number.checked_add(1) else {
            return Err(NoMemory);
        };
        number = next;
    }
    Ok(found)
}

/// The numbers of types by their places, and of the names that are declared in their texts.
#[derive(Drop)]
pub struct Numbers {
    types: HashMap<PlaceKey, u32>,
    members: HashMap<MemberKey, u32>,
}

impl Numbers {
    /// The numbers of what is declared.
    pub fn new(
        alloc: Global,
        declarations: &[Declaration],
        entries: &[TypeEntry],
    ) -> Result<Numbers, NoMemory>
        requires { entries.now ≡ Scopes.entries declarations.now }
        ensures { IfOk result (λ numbers. AreNumbers declarations.now numbers) }
    {
        let types = type_numbers(alloc, entries)?;
        let members = ranks(alloc, declarations)?;
        Ok(Numbers { types, members })
    }

    // The number of a type, and a number in it; none where one of them is missing.
    fn numbered(&self, type_: Place, number: Option<u32>) -> Option<(u32, u32)>
        ensures { (ds : List Declaration) → AreNumbers ds self.now → result ≡ Scopes.numbered ds type_ number }
    {
        let target = self.types.get(&place_key(type_)).copied()?;
        Some((target, number?))
    }

    // The number of a name among those that are declared in the text of a type.
    fn rank_in(&self, type_: Place, member: &Declaration) -> Option<u32>
        ensures { (ds : List Declaration) → AreNumbers ds self.now → result ≡ Scopes.rank_in ds type_ member.now }
    {
        let key = member_key(type_, member.name.place);
        self.members.get(&key).copied()
    }

    // The numbers of a name that is declared in the text of a type.
    fn of_member(&self, member: &Declaration) -> Option<(u32, u32)>
        ensures { (ds : List Declaration) → AreNumbers ds self.now → result ≡ Scopes.member_numbers ds member.now }
    {
        let type_ = member.inside?;
        self.numbered(type_, self.rank_in(type_, member))
    }

    /// The numbers of what a name stands for; none where it has none.
    pub fn of(&self, referent: &Referent) -> Option<(u32, u32)>
        ensures { (ds : List Declaration) → AreNumbers ds self.now → result ≡ Scopes.numbers_of ds referent.now }
    {
        match *referent {
            Referent::Declared(declared) => {
                if sort_of(declared.sort).is_some() {
                    self.numbered(declared.name.place, Some(0))
                } else {
                    self.of_member(&declared)
                }
            }
            Referent::Initial(object) => self.numbered(object.name.place, Some(u32::MAX)),
            Referent::Previous(object) => self.numbered(object.name.place, Some(u32::MAX - 1)),
            Referent::Number(object) => self.numbered(object.name.place, Some(u32::MAX - 2)),
        }
    }
}
