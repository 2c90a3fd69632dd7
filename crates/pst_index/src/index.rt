//! The index of what the sources declare.
ghost use Rattle.std.specs.Prelude.{◌≡◌, IfOk, is_some};
ghost use Rattle.std.specs.List.{find};
ghost use Rattle.pst_ast.specs.Lookups;
ghost use Rattle.pst_ast.specs.Paths;
ghost use Rattle.pst_index.specs.Found.{is_item_beside};

use crate::first::{first_by, other_items};
use crate::key::{By, Key, name_key, place_key};
use crate::tabled::tables_of;
use pst_ast::{Declaration, Scope, Sort};
use pst_base::{NameId, NoMemory, Place};
use pst_members::Tables;
use std::alloc::Global;
use std::collections::HashMap;
use std::marker::Model;

/// What the sources declare, in the order of their text, with an index by scope and name, by place,
/// by level and item, and by scope and field.
///
/// Contracts see the list of the declarations. Each look-up takes expected constant time.
#[derive(Drop)]
pub struct Index {
    pub(crate) declarations: Vec<Declaration>,
    names: HashMap<Key, Declaration>,
    places: HashMap<Key, Declaration>,
    items: HashMap<Key, Declaration>,
    fields: HashMap<Key, Declaration>,
    others: HashMap<Key, Declaration>,
    pub(crate) tables: Tables,
}

impl Model for Index {
    ghost use Rattle.std.specs.Prelude.{List};
    ghost use Rattle.pst_ast.specs.declared.scope_declaration.Declaration.{Declaration};
    ghost use Rattle.pst_index.specs.Indexed.{IsIndex};

    ghost Value = { List Declaration };

    ghost view = { λ i. i.declarations.items };

    ghost invariant = { IsIndex };
}

impl Index {
    /// The index of a list of declarations.
    pub fn new(alloc: Global, declarations: Vec<Declaration>) -> Result<Index, NoMemory>
        ensures { IfOk result (λ index. index ≡ declarations.items) }
    {
        let names = first_by(alloc, By::Name, declarations.as_slice())?;
        let places = first_by(alloc, By::Place, declarations.as_slice())?;
        let items = first_by(alloc, By::Item, declarations.as_slice())?;
        let fields = first_by(alloc, By::Field, declarations.as_slice())?;
        let others = other_items(alloc, &items, declarations.as_slice())?;
        let mut index = Index {
            declarations,
            names,
            places,
            items,
            fields,
            others,
            tables: Tables::new(alloc)?,
        };
        index.tables = tables_of(alloc, &index)?;
        Ok(index)
    }

    /// The declarations in the order of the text.
    pub fn as_slice(&self) -> &[Declaration]
        ensures { result.now ≡ self.now }
    {
        self.declarations.as_slice()
    }

    /// What a scope declares by a name: of several declarations the first.
    pub fn look_up(&self, scope: Scope, name: NameId) -> Option<Declaration>
        ensures { result ≡ Lookups.look_up self.now scope name }
    {
        self.names.get(&name_key(scope, name)).copied()
    }

    /// What is declared by the name at a place.
    pub fn declared_at(&self, place: Place) -> Option<Declaration>
        ensures { result ≡ Lookups.declared_at self.now place }
    {
        self.places.get(&place_key(place)).copied()
    }

    /// The first item of a name in the enums of a level.
    pub fn item_at(&self, level: Scope, name: NameId) -> Option<Declaration>
        ensures { result ≡ Lookups.item_at self.now level name }
    {
        self.items.get(&name_key(level, name)).copied()
    }

    /// A field of an object, whose named constraints aren't looked up.
    pub fn field_of(&self, object: &Declaration, name: NameId) -> Option<Declaration>
        ensures { result ≡ Lookups.field_of self.now object.now name }
    {
        self.fields
            .get(&name_key(Scope::Part(object.name.place), name))
            .copied()
    }

    /// Whether a declaration is an item of which another enum of its level has the name too.
    pub fn is_doubled(&self, declaration: &Declaration) -> bool
        ensures { result ≡ Paths.is_doubled self.now declaration.now declaration.now.sort }
    {
        match declaration.sort {
            Sort::Item { level } => self.has_other(level, declaration.name.id, declaration.scope),
            _ => false,
        }
    }

    // Whether an enum of a level other than that has an item of that name.
    fn has_other(&self, level: Scope, name: NameId, enum_: Scope) -> bool
        ensures { result ≡ is_some (find (is_item_beside level name enum_) self.now) }
    {
        match self.item_at(level, name) {
            None => false,
            Some(first) => {
                first.scope != enum_ || self.others.contains_key(&name_key(level, name))
            }
        }
    }
}
