//! The declarations of each scope.
ghost use Rattle.std.specs.Prelude.{◌≡◌, ◌++◌, ◌∷◌, [], List, IfOk, OnOk, slice_get, if◌then◌else◌, Some, length};
ghost use Rattle.std.specs.Option.{option_and_then};
ghost use Rattle.std.specs.HashMap.{get};
ghost use Rattle.pst_members.specs.Keys;
ghost use Rattle.pst_members.specs.Keys.{same_key};
ghost use Rattle.pst_members.specs.Links.{IsAdded};
ghost use Rattle.pst_members.specs.Kept.{AreLinked};

use crate::key::{ScopeKey, scope_key};
use pst_ast::{Declaration, Scope};
use pst_base::NoMemory;
use std::alloc::Global;
use std::collections::HashMap;

/// The declarations of each scope, from its last on, by their positions in a list.
#[derive(Drop)]
pub struct Linked {
    pub(crate) last: HashMap<ScopeKey, u32>,
    pub(crate) before: Vec<Option<u32>>,
}

// Adds the next declaration.
fn add(linked: &mut Linked, declaration: &Declaration) -> Result<(), NoMemory>
    ensures { OnOk result (IsAdded declaration.now.scope (get same_key linked.old.last) linked.old.before.items (get same_key linked.new.last) linked.new.before.items) }
{
    let Ok(position) = u32::try_from(linked.before.len()) else {
        return Err(NoMemory);
    };
    let key = scope_key(declaration.scope);
    let before = linked.last.get(&key).copied();
    linked.before.push(before)?;
    linked.last.insert(key, position)?;
    Ok(())
}

impl Linked {
    /// The declarations of a list.
    pub fn new(alloc: Global, declarations: &[Declaration]) -> Result<Linked, NoMemory>
        ensures { IfOk result (AreLinked declarations.now) }
    {
        let mut linked = Linked {
            last: HashMap::new(alloc),
            before: Vec::new(alloc),
        };
        for declaration in declarations {
            add(&mut linked, declaration)?;
        }
        Ok(linked)
    }

    // The last declaration of a scope.
    pub(crate) fn last_of(&self, scope: Scope) -> Option<u32>
        ensures { result ≡ get same_key self.now.last (Keys.scope_key scope) }
    {
        self.last.get(&scope_key(scope)).copied()
    }

    // The declaration before one in its scope.
    pub(crate) fn before(&self, position: u32) -> Option<u32>
        ensures { result ≡ option_and_then (λ before. before) (slice_get self.now.before.items position) }
    {
        self.before
            .as_slice()
            .get(position as usize)
            .copied()
            .flatten()
    }
}
