//! The bases of types that declare members.
ghost use Rattle.std.specs.Prelude.{◌≡◌, IfOk};
ghost use Rattle.pst_member_bases.specs.Grouped.{AreListedBy};

use crate::groups::{MemberGroup, bases_with};
use pst_ast::Declaration;
use pst_base::NoMemory;
use pst_index::Index;
use pst_marked_bases::MarkedBases;
use std::alloc::Global;
use std::marker::Model;

/// What is declared, and of the bases of each type those that declare members.
///
/// Contracts see what the sources declare. The bases of a type that declare members of a group are
/// found in time by their number.
#[derive(Drop)]
pub struct MemberBases<'a> {
    index: &'a Index,
    handles: MarkedBases<'a>,
    others: MarkedBases<'a>,
}

impl<'a> Model for MemberBases<'a> {
    ghost use Rattle.std.specs.Prelude.{List};
    ghost use Rattle.pst_ast.specs.declared.scope_declaration.Declaration.{Declaration};
    ghost use Rattle.pst_member_bases.specs.Kept.{HasBases};

    ghost Value = { List Declaration };

    ghost view = { λ m. m.index.now };

    ghost invariant = { HasBases };
}

impl<'a> MemberBases<'a> {
    /// What is declared, with the bases of types.
    pub fn new(alloc: Global, index: &'a Index) -> Result<MemberBases<'a>, NoMemory>
        ensures { IfOk result (λ m. m ≡ index.now) }
    {
        let handles = bases_with(alloc, index, MemberGroup::Handles)?;
        let others = bases_with(alloc, index, MemberGroup::Others)?;
        Ok(MemberBases {
            index,
            handles,
            others,
        })
    }

    /// What is declared.
    pub fn index(&self) -> &'a Index
        ensures { result.now ≡ self.now }
    {
        self.index
    }

    /// Those of a type and its bases that declare members of a group, the furthest first: together
    /// they declare all of its members of each sort of that group.
    pub fn of(
        &self,
        alloc: Global,
        group: MemberGroup,
        type_: &Declaration,
    ) -> Result<Vec<Declaration>, NoMemory>
        ensures { IfOk result (AreListedBy group self.now type_.now) }
    {
        match group {
            MemberGroup::Handles => self.handles.of(alloc, type_),
            MemberGroup::Others => self.others.of(alloc, type_),
        }
    }
}
