//! The indices and locals whose scopes a use of a name is in.
ghost use Rattle.std.specs.Prelude.{◌≡◌, ◌∷◌, [], drop, OnOk, OnErr};
ghost use Rattle.pst_ast.specs.Inner.{inner_named};

use crate::Name;
use pst_base::{NameId, NoMemory};
use std::alloc::Global;
use std::collections::{HashMap, VecDeque};
use std::marker::Model;

// A name, and the next outer one of that name, which it hides.
#[derive(Clone, Copy, PartialEq, Eq)]
struct InnerName {
    name: Name,
    hides: Option<Name>,
}

/// The indices and locals whose scopes a use of a name is in.
///
/// Contracts see the list of their names, the innermost first. A look-up takes expected constant
/// time.
#[derive(Drop)]
pub struct Inner {
    names: VecDeque<InnerName>,
    latest: HashMap<u32, Name>,
}

impl Model for Inner {
    ghost use Rattle.std.specs.Prelude.{List};
    ghost use Rattle.pst_ast.specs.declared.leaf.Name.{Name};
    ghost use Rattle.pst_ast.specs.InnerKept.{names_of, IsInner};

    ghost Value = { List Name };

    ghost view = { λ i. names_of i.names.items };

    ghost invariant = { IsInner };
}

impl Inner {
    /// No names, which takes no memory.
    pub fn new(alloc: Global) -> Inner
        ensures { result ≡ [] }
    {
        Inner {
            names: VecDeque::new(alloc),
            latest: HashMap::new(alloc),
        }
    }

    /// The innermost of the indices and locals of a name.
    pub fn find(&self, name: NameId) -> Option<Name>
        ensures { result ≡ inner_named self.now name }
    {
        self.latest.get(&name.0).copied()
    }

    /// A further name, which is the innermost from then on.
    pub fn push(&mut self, name: Name) -> Result<(), NoMemory>
        ensures ok { OnOk result (self.new ≡ name ∷ self.old) }
        ensures err { OnErr result (self.new ≡ self.old) }
    {
        let hides = self.latest.get(&name.id.0).copied();
        self.names.push_front(InnerName { name, hides })?;
        if self.latest.insert(name.id.0, name).is_err() {
            self.names.pop_front();
            return Err(NoMemory);
        }
        Ok(())
    }

    /// Takes the innermost name off, where there is one.
    pub fn pop(&mut self)
        ensures { self.new ≡ drop 1 self.old }
    {
        let Some(last) = self.names.pop_front() else {
            return;
        };
        match last.hides {
            None => {
                self.latest.remove(&last.name.id.0);
            }
            Some(hidden) => {
                if let Some(latest) = self.latest.get_mut(&last.name.id.0) {
                    *latest = hidden;
                }
            }
        }
    }
}
