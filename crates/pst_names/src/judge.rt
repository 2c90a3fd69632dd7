//! A visitor that judges each use of a name, and keeps what it stands for.
ghost use Rattle.std.specs.Prelude.{◌≡◌, ◌++◌, [], None, OnOk};
ghost use Rattle.pst_ast.specs.Scopes.{meant, meant_declared};
ghost use Rattle.pst_name_rules.specs.Earlier;

use pst_ast::{Declaration, Finding, Meant, Name, Referent};
use pst_base::{Names, NoMemory};
use pst_index::Index;
use pst_name_rules::earlier;
use std::alloc::Global;
use std::marker::Model;

/// Judges the uses of a walk.
#[derive(Drop)]
pub struct Judge<'a> {
    pub alloc: Global,
    pub index: &'a Index,
    pub names: &'a Names,
    least: Option<Finding>,
    meant: Vec<Meant>,
}

impl<'a> Model for Judge<'a> {
    ghost use Rattle.pst_names.specs.Judged.{Judged};

    ghost Value = { Judged };

    ghost view = { λ j. record { ds = j.index.now; names = j.names.now; least = j.least; meant = j.meant.items } };
}

impl<'a> Judge<'a> {
    /// A judge that has seen nothing.
    pub fn new(alloc: Global, index: &'a Index, names: &'a Names) -> Judge<'a>
        ensures { result ≡ record { ds = index.now; names = names.now; least = None; meant = [] } }
    {
        Judge {
            alloc,
            index,
            names,
            least: None,
            meant: Vec::new(alloc),
        }
    }

    /// The least finding, and what the names stand for.
    pub fn into_parts(self) -> (Option<Finding>, Vec<Meant>)
        ensures least { result.0 ≡ self.entry.least }
        ensures meant { result.1.items ≡ self.entry.meant }
    {
        (self.least, self.meant)
    }

    /// Keeps a finding, where it is the least.
    pub fn note(&mut self, finding: Option<Finding>)
        ensures { self.new ≡ record self.old { least = Earlier.earlier self.old.least finding } }
    {
        self.least = earlier(self.least, finding);
    }

    /// Keeps what a name stands for.
    pub fn mean(&mut self, name: Name, referent: Option<Referent>) -> Result<(), NoMemory>
        ensures { OnOk result (self.new ≡ record self.old { meant = self.old.meant ++ meant name referent }) }
    {
        if let Some(referent) = referent {
            self.meant.push(Meant { name, referent })?;
        }
        Ok(())
    }

    /// Keeps what declares a name that is used.
    pub fn mean_declared(&mut self, name: Name, found: Option<Declaration>) -> Result<(), NoMemory>
        ensures { OnOk result (self.new ≡ record self.old { meant = self.old.meant ++ meant_declared name found }) }
    {
        if let Some(found) = found {
            self.mean(name, Some(Referent::Declared(found)))?;
        }
        Ok(())
    }
}
