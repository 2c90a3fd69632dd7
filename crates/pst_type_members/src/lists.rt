//! The members of one sort that a type has with its bases.
ghost use Rattle.std.specs.Prelude.{◌≡◌, ◌++◌, IfOk, OnOk};
ghost use Rattle.std.specs.List.{flat_map};
ghost use Rattle.pst_tree.specs.Bases;
ghost use Rattle.pst_tree.specs.Needed.{needs_within};
ghost use Rattle.pst_type_rules.specs.Members.{those_that};
ghost use Rattle.pst_type_members.specs.Among.{IsAmong};
ghost use Rattle.pst_type_members.specs.Listed.{is_of};

use crate::among::Among;
use crate::rows::Members;
use pst_ast::{Declaration, Sort};
use pst_base::NoMemory;
use pst_member_bases::MemberGroup;
use std::alloc::Global;

/// A sort of members.
#[derive(Clone, Copy, PartialEq, Eq)]
pub enum MemberSort {
    /// Fields.
    Field,
    /// References to flow objects.
    Reference,
    /// Claims of resources.
    Claim,
    /// Action handles.
    Handle,
}

// Whether a declaration is of that sort.
fn is_of_sort(by: MemberSort, sort: Sort) -> bool
    ensures { result ≡ is_of by sort }
{
    match by {
        MemberSort::Field => matches!(sort, Sort::Field { .. }),
        MemberSort::Reference => matches!(sort, Sort::Reference { .. }),
        MemberSort::Claim => matches!(sort, Sort::Claim { .. }),
        MemberSort::Handle => matches!(sort, Sort::Handle { .. }),
    }
}

// Adds those of that sort.
fn add_those(
    found: &mut Vec<Declaration>,
    by: MemberSort,
    declarations: &[Declaration],
) -> Result<(), NoMemory>
    ensures { OnOk result (found.new.items ≡ found.old.items ++ those_that (is_of by) declarations.now) }
{
    for declaration in declarations {
        if is_of_sort(by, declaration.sort) {
            found.push(*declaration)?;
        }
    }
    Ok(())
}

/// How many stand before a declaration in a list; all, where it isn't there.
pub fn number_in(list: &[Declaration], declaration: &Declaration) -> usize
    ensures { result ≡ Bases.number_in list.now declaration.now }
{
    for (number, other) in list.iter().enumerate() {
        if other.name.place == declaration.name.place {
            return number;
        }
    }
    list.len()
}

impl<'a> Members<'a> {
    // Those of a type and its bases that declare members of a sort, the furthest first.
    fn bases_of(
        &self,
        alloc: Global,
        by: MemberSort,
        type_: &Declaration,
    ) -> Result<Vec<Declaration>, NoMemory>
        ensures { IfOk result (λ bases. flat_map (needs_within (is_of by) self.now) bases.items ≡ Bases.members_that (is_of by) self.now type_.now) }
    {
        match by {
            MemberSort::Handle => self.bases_with(alloc, MemberGroup::Handles, type_),
            _ => self.bases_with(alloc, MemberGroup::Others, type_),
        }
    }

    // Adds those of types.
    fn add_each(
        &self,
        found: &mut Vec<Declaration>,
        by: MemberSort,
        bases: &[Declaration],
    ) -> Result<(), NoMemory>
        ensures { OnOk result (found.new.items ≡ found.old.items ++ flat_map (needs_within (is_of by) self.now) bases.now) }
    {
        for base in bases {
            add_those(found, by, self.own(base))?;
        }
        Ok(())
    }

    /// The members of one sort that a type has, its base's first.
    pub fn those(
        &self,
        alloc: Global,
        by: MemberSort,
        type_: &Declaration,
    ) -> Result<Vec<Declaration>, NoMemory>
        ensures { IfOk result (λ v. v.items ≡ Bases.members_that (is_of by) self.now type_.now) }
    {
        let bases = self.bases_of(alloc, by, type_)?;
        let mut found = Vec::new(alloc);
        self.add_each(&mut found, by, bases.as_slice())?;
        Ok(found)
    }

    // Where a member stands among those of its sort that a type declares itself.
    fn among_own(
        &self,
        alloc: Global,
        by: MemberSort,
        type_: &Declaration,
        member: &Declaration,
    ) -> Result<Among, NoMemory>
        ensures { IfOk result (IsAmong (needs_within (is_of by) self.now type_.now) member.now) }
    {
        let mut found = Vec::new(alloc);
        add_those(&mut found, by, self.own(type_))?;
        Ok(Among {
            number: number_in(found.as_slice(), member),
            count: found.len(),
        })
    }

    // The same, where the handles of types are looked up.
    fn among(
        &self,
        alloc: Global,
        by: MemberSort,
        type_: &Declaration,
        member: &Declaration,
    ) -> Result<Among, NoMemory>
        ensures { IfOk result (IsAmong (needs_within (is_of by) self.now type_.now) member.now) }
    {
        match by {
            MemberSort::Handle => match self.among_handles(type_, member) {
                Some(found) => Ok(found),
                None => self.among_own(alloc, by, type_, member),
            },
            _ => self.among_own(alloc, by, type_, member),
        }
    }

    // How many members of a sort that types declare stand before one; all, where it isn't there.
    fn number_behind(
        &self,
        alloc: Global,
        by: MemberSort,
        types: &[Declaration],
        member: &Declaration,
    ) -> Result<usize, NoMemory>
        ensures { IfOk result (λ n. n ≡ Bases.number_in (flat_map (needs_within (is_of by) self.now) types.now) member.now) }
    {
        let mut before: usize = 0;
        for type_ in types {
            let stands = self.among(alloc, by, type_, member)?;
            let Some(number) = before.checked_add(stands.number) else {
                return Err(NoMemory);
            };
            if stands.number < stands.count {
                return Ok(number);
            }
            before = number;
        }
        Ok(before)
    }

    /// The number of a member among those of its sort that a type has.
    ///
    /// A handle is looked up in each base's; other members are counted.
    pub fn number(
        &self,
        alloc: Global,
        by: MemberSort,
        type_: &Declaration,
        member: &Declaration,
    ) -> Result<u32, NoMemory>
        ensures { IfOk result (λ n. n ≡ Bases.number_in (Bases.members_that (is_of by) self.now type_.now) member.now) }
    {
        let bases = self.bases_of(alloc, by, type_)?;
        let number = self.number_behind(alloc, by, bases.as_slice(), member)?;
        match u32::try_from(number) {
            Ok(number) => Ok(number),
            Err(_) => Err(NoMemory),
        }
    }
}
