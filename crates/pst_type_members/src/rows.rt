//! What types declare in their own scopes.
ghost use Rattle.std.specs.Prelude.{◌≡◌, IfOk, IfSome};
ghost use Rattle.pst_tree.specs.Needed.{needs_within};
ghost use Rattle.pst_ast.specs.Sorts.{is_handle};
ghost use Rattle.pst_type_rules.specs.Members.{own_members};
ghost use Rattle.pst_member_bases.specs.Grouped.{AreListedBy};
ghost use Rattle.pst_type_members.specs.Among.{IsAmong};

use crate::among::Among;
use crate::handles::{HandleRows, handle_rows_of};
use crate::scopes::{ScopeRows, rows_of};
use pst_ast::Declaration;
use pst_base::NoMemory;
use pst_index::Index;
use pst_member_bases::{MemberBases, MemberGroup};
use std::alloc::Global;
use std::marker::Model;

/// The members of types.
///
/// Contracts see what the sources declare. What a type declares is found in expected constant time;
/// of its bases only those are gone through that declare members.
#[derive(Drop)]
pub struct Members<'a> {
    bases: &'a MemberBases<'a>,
    rows: ScopeRows,
    handles: HandleRows,
}

impl<'a> Model for Members<'a> {
    ghost use Rattle.std.specs.Prelude.{List};
    ghost use Rattle.pst_ast.specs.declared.scope_declaration.Declaration.{Declaration};
    ghost use Rattle.pst_type_members.specs.Kept.{HasRows};

    ghost Value = { List Declaration };

    ghost view = { λ m. m.bases.now };

    ghost invariant = { HasRows };
}

impl<'a> Members<'a> {
    /// The members of what is declared.
    pub fn new(alloc: Global, bases: &'a MemberBases<'a>) -> Result<Members<'a>, NoMemory>
        ensures { IfOk result (λ m. m ≡ bases.now) }
    {
        let index = bases.index();
        let rows = rows_of(alloc, index.as_slice())?;
        let handles = handle_rows_of(alloc, &rows, index.as_slice())?;
        Ok(Members {
            bases,
            rows,
            handles,
        })
    }

    /// What is declared.
    pub fn index(&self) -> &'a Index
        ensures { result.now ≡ self.now }
    {
        self.bases.index()
    }

    /// What a type declares itself, in order of declaration.
    pub fn own(&self, type_: &Declaration) -> &[Declaration]
        ensures { result.now ≡ own_members self.now type_.now }
    {
        self.rows.at(type_.name.place)
    }

    /// Those of a type and its bases that declare members of a group, the furthest first.
    pub(crate) fn bases_with(
        &self,
        alloc: Global,
        group: MemberGroup,
        type_: &Declaration,
    ) -> Result<Vec<Declaration>, NoMemory>
        ensures { IfOk result (AreListedBy group self.now type_.now) }
    {
        self.bases.of(alloc, group, type_)
    }

    /// Where a handle stands among those that a type declares itself, where these are kept.
    pub(crate) fn among_handles(&self, type_: &Declaration, handle: &Declaration) -> Option<Among>
        ensures { IfSome result (IsAmong (needs_within is_handle self.now type_.now) handle.now) }
    {
        self.handles.among(type_, handle)
    }
}
