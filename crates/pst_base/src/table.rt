//! The table of names.
ghost use Rattle.std.specs.Prelude.{◌≡◌, ◌^◌, ◌-◌, ◌<◌, ◌↔◌, [], length, slice_get, false, IsTrue, IfOk, OnOk, OnErr, IfSome, IsNone};
ghost use Rattle.std.specs.List.{list_any};
ghost use Rattle.std.specs.Str.{bytes_eq};
ghost use Rattle.pst_base.specs.Names.{with_text, AreDifferent};

use crate::NoMemory;
use indexmap::IndexSet;
use std::alloc::Global;
use std::marker::Model;

/// The number of a text in a table of names.
#[derive(Clone, Copy, Debug, PartialEq, Eq, PartialOrd, Ord, Hash)]
pub struct NameId(pub u32);

/// A table of names: a list of different texts, each known by its number in the list.
///
/// Contracts see the list of the texts' bytes. A look-up and an addition take expected constant
/// time and one comparison of texts.
#[derive(Drop)]
pub struct Names {
    texts: IndexSet<String>,
}

impl Model for Names {
    ghost use Rattle.std.specs.Prelude.{ℕ, List};

    ghost Value = { List (List ℕ) };

    ghost use Rattle.pst_base.specs.Table.{texts_of, IsTable};

    ghost view = { texts_of };

    ghost invariant = { IsTable };
}

impl Names {
    /// A table without texts, which takes no memory yet.
    pub fn new(alloc: Global) -> Names
        ensures { result ≡ [] }
    {
        Names {
            texts: IndexSet::new(alloc),
        }
    }

    /// The number of the text. A text that is there keeps its number; a new one goes last.
    /// At [`NoMemory`] the table is as it was.
    pub fn intern(&mut self, text: &str) -> Result<NameId, NoMemory>
        requires { length self.old < 2 ^ 32 - 1 }
        ensures found { IfOk result (λ id. slice_get self.new id.0 ≡ Some text.now) }
        ensures texts { OnOk result (self.new ≡ with_text self.old text.now) }
        ensures different { AreDifferent self.new }
        ensures err { OnErr result (self.new ≡ self.old) }
    {
        if let Some(index) = self.texts.get_index_of(text) {
            return Ok(NameId(index as u32));
        }
        let owned = String::from_str(*self.texts.allocator(), text)?;
        let (index, _) = self.texts.insert_full(owned)?;
        Ok(NameId(index as u32))
    }

    /// The number of the text, where it is in the table. A look-up takes no memory.
    pub fn find(&self, text: &str) -> Option<NameId>
        ensures found { IfSome result (λ id. slice_get self.now id.0 ≡ Some text.now) }
        ensures none { IsNone result ↔ (list_any (bytes_eq text.now) self.now ≡ false) }
    {
        match self.texts.get_index_of(text) {
            Some(index) => Some(NameId(index as u32)),
            None => None,
        }
    }

    /// The text of the number.
    pub fn text(&self, id: NameId) -> &str
        requires { id.0 < length self.now }
        ensures { slice_get self.now id.0 ≡ Some result.now }
    {
        self.texts.as_slice()[id.0 as usize].as_str()
    }

    /// The count of texts, which are all different.
    pub fn len(&self) -> u32
        ensures count { result ≡ length self.now }
        ensures different { AreDifferent self.now }
    {
        self.texts.len() as u32
    }

    /// Whether the table has no text.
    pub fn is_empty(&self) -> bool
        ensures { IsTrue result ↔ (self.now ≡ []) }
    {
        self.len() == 0
    }
}
