//! What an action type has and does with its bases.
ghost use Rattle.std.specs.Prelude.{◌≡◌, ◌++◌, ◌<◌, Some, length, IfOk, OnOk};
ghost use Rattle.std.specs.List.{flat_map};
ghost use Rattle.pst_ast.specs.Lookups.{base_of};
ghost use Rattle.pst_tree.specs.declared.rows.Member.TheVariants as member;
ghost use Rattle.pst_tree.specs.Kept.{AreRows};
ghost use Rattle.pst_type_rules.specs.Members.{those_that};
ghost use Rattle.pst_tree.specs.InheritedFound;
ghost use Rattle.pst_tree.specs.Needed.{needs_within};
ghost use Rattle.pst_action_needs.specs.Inheriting.{IsInherited, is_need_of};

use pst_ast::{Declaration, Sort};
use pst_base::NoMemory;
use pst_index::Index;
use pst_tree::{ContentSort, Rows, Sites, with_bases};
use std::alloc::Global;

/// A sort of what pools serve.
#[derive(Clone, Copy, PartialEq, Eq)]
pub enum NeedSort {
    /// References.
    Reference,
    /// Claims.
    Claim,
}

/// What an action type has and does with its bases.
#[derive(Drop)]
pub struct Inherited {
    /// The action type.
    pub action: Declaration,
    /// How many types it is with its bases.
    pub count: usize,
    /// Whether it is compound.
    pub compound: bool,
    /// Its references, its base's first.
    pub references: Vec<Declaration>,
    /// Its claims, its base's first.
    pub claims: Vec<Declaration>,
}

// Whether a declaration is of that sort.
fn is_of(by: NeedSort, sort: Sort) -> bool
    ensures { result ≡ is_need_of by sort }
{
    match by {
        NeedSort::Reference => matches!(sort, Sort::Reference { .. }),
        NeedSort::Claim => matches!(sort, Sort::Claim { .. }),
    }
}

// Adds those of a row that are of a sort.
fn add_row(found: &mut Vec<Declaration>, by: NeedSort, row: &[Declaration]) -> Result<(), NoMemory>
    ensures { OnOk result (found.new.items ≡ found.old.items ++ those_that (is_need_of by) row.now) }
{
    for member in row {
        if is_of(by, member.sort) {
            found.push(*member)?;
        }
    }
    Ok(())
}

// Adds those of a sort that a type declares itself.
fn add_own(
    found: &mut Vec<Declaration>,
    by: NeedSort,
    _index: &Index,
    members: &Rows,
    owner: &Declaration,
) -> Result<(), NoMemory>
    requires { AreRows member.Need _index.now members.now }
    ensures { OnOk result (found.new.items ≡ found.old.items ++ needs_within (is_need_of by) _index.now owner.now) }
{
    add_row(found, by, members.at(owner.name.place))
}

// Adds those of a sort that types declare.
fn add_all(
    found: &mut Vec<Declaration>,
    by: NeedSort,
    index: &Index,
    members: &Rows,
    owners: &[Declaration],
) -> Result<(), NoMemory>
    requires { AreRows member.Need index.now members.now }
    ensures { OnOk result (found.new.items ≡ found.old.items ++ flat_map (needs_within (is_need_of by) index.now) owners.now) }
{
    for owner in owners {
        add_own(found, by, index, members, owner)?;
    }
    Ok(())
}

/// What an action type has and does with its bases, each of which is walked to.
pub fn walked(
    alloc: Global,
    index: &Index,
    members: &Rows,
    sites: &Sites,
    action: &Declaration,
) -> Result<Inherited, NoMemory>
    requires { AreRows member.Need index.now members.now }
    ensures action { IfOk result (λ row. row.action ≡ action.now) }
    ensures inherited { IfOk result (IsInherited sites.now index.now) }
{
    let bases = with_bases(alloc, index, action)?;
    let owners = bases.as_slice();
    let mut references = Vec::new(alloc);
    add_all(&mut references, NeedSort::Reference, index, members, owners)?;
    let mut claims = Vec::new(alloc);
    add_all(&mut claims, NeedSort::Claim, index, members, owners)?;
    Ok(Inherited {
        action: *action,
        count: owners.len(),
        compound: sites.is_compound(owners),
        references,
        claims,
    })
}

// Whether an action type is compound, behind a base that is or isn't.
fn is_compound_behind(sites: &Sites, base: bool, action: &Declaration) -> bool
    ensures { result ≡ InheritedFound.after base (InheritedFound.own_sort sites.now action.now) }
{
    match sites.at(action.name.place) {
        None => base,
        Some(site) => match site.content {
            None => base,
            Some(ContentSort::Activity) => true,
            Some(ContentSort::Body) => false,
        },
    }
}

// The same declarations, and behind them those of a sort that a type declares itself.
fn continued(
    alloc: Global,
    before: &[Declaration],
    by: NeedSort,
    index: &Index,
    members: &Rows,
    owner: &Declaration,
) -> Result<Vec<Declaration>, NoMemory>
    requires { AreRows member.Need index.now members.now }
    ensures { IfOk result (λ found. found.items ≡ before.now ++ needs_within (is_need_of by) index.now owner.now) }
{
    let mut found = Vec::new(alloc);
    for member in before {
        found.push(*member)?;
    }
    add_own(&mut found, by, index, members, owner)?;
    Ok(found)
}

/// What an action type has and does with its bases, given the same of its base, whose chain is
/// shorter than the number of all declarations.
pub fn derived(
    alloc: Global,
    index: &Index,
    declared: usize,
    members: &Rows,
    sites: &Sites,
    base: &Inherited,
    action: &Declaration,
) -> Result<Inherited, NoMemory>
    requires rows { AreRows member.Need index.now members.now }
    requires base { base_of index.now action.now ≡ Some base.now.action }
    requires inherited { IsInherited sites.now index.now base.now }
    requires few { base.now.count < declared }
    requires declared { declared ≡ length index.now }
    ensures action { IfOk result (λ row. row.action ≡ action.now) }
    ensures inherited { IfOk result (IsInherited sites.now index.now) }
{
    let references = continued(
        alloc,
        base.references.as_slice(),
        NeedSort::Reference,
        index,
        members,
        action,
    )?;
    let claims = continued(
        alloc,
        base.claims.as_slice(),
        NeedSort::Claim,
        index,
        members,
        action,
    )?;
    Ok(Inherited {
        action: *action,
        count: base.count + 1,
        compound: is_compound_behind(sites, base.compound, action),
        references,
        claims,
    })
}
