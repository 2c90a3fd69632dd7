//! Plans: the groups and the order of a scenario's actions, and their conflicts.
ghost use Rattle.std.specs.Prelude.{◌≡◌, ◌≤◌, ◌<◌, ◌↔◌, ◌^◌, ◌+◌, ◌≢◌, ℕ, length, get_or, IsTrue, IfOk};
ghost use Rattle.pst_scen.specs.Rows.{IsSquare, Has};
ghost use Rattle.pst_scen.specs.Plan.{AreGroupsNumbered, AreSized, AreCounts, member_count, widest};

use crate::rows::Rows;
use pst_base::NoMemory;
use std::alloc::Global;
use std::marker::Model;

/// The groups of a scenario's actions, which action must end before which starts, and which can't
/// run at one time. Contracts see it as its groups and its two squares.
#[derive(Debug, Drop)]
pub struct Plan {
    groups: Vec<u32>,
    must: Rows,
    conflict: Rows,
    width: u32,
}

impl Model for Plan {
    ghost use Rattle.std.specs.Prelude.{◌≡◌};
    ghost use Rattle.pst_scen.specs.Plan.{Entries, AreGroupsNumbered, AreSized, widest};

    ghost Value = { Entries };

    ghost view = { λ p. record { groups = p.groups.items; must = p.must; conflict = p.conflict } };

    ghost invariant = { λ p. AreGroupsNumbered p.groups.items × AreSized p.groups.items p.must p.conflict × (p.width ≡ widest p.groups.items) };
}

/// The number of members of a group.
fn members_of(groups: &[u32], group: u32) -> usize
    ensures is { result ≡ member_count groups.now group }
    ensures few { result ≤ length groups.now }
{
    let mut count = 0;
    for other in groups {
        if group == *other {
            count += 1;
        }
    }
    count
}

/// The number of members of the widest group.
fn width_of(groups: &[u32]) -> usize
    ensures is { result ≡ widest groups.now }
    ensures few { result ≤ length groups.now }
{
    let mut width = 0;
    for group in groups {
        let count = members_of(groups, *group);
        if count > width {
            width = count;
        }
    }
    width
}

/// Adds one to the group's count.
fn count_one(counts: &mut Vec<u32>, group: u32)
    requires group_in { group < length counts.old.items }
    requires room { get_or counts.old.items group 0 + 1 < 2 ^ 32 }
    ensures long { length counts.new.items ≡ length counts.old.items }
    ensures here { get_or counts.new.items group 0 ≡ get_or counts.old.items group 0 + 1 }
    ensures others { (m : ℕ) → m ≢ group → get_or counts.new.items m 0 ≡ get_or counts.old.items m 0 }
{
    counts[group as usize] += 1;
}

/// The number of members of each group, by the group's number.
fn count_members(alloc: Global, groups: &[u32]) -> Result<Vec<u32>, NoMemory>
    requires numbered { AreGroupsNumbered groups.now }
    requires few { length groups.now < 2 ^ 32 }
    ensures { IfOk result (λ counts. AreCounts groups.now (length groups.now) counts.items) }
{
    let mut counts = vec![in alloc; 0u32; groups.len()]?;
    for group in groups {
        count_one(&mut counts, *group);
    }
    Ok(counts)
}

/// The number of members of a group of the table.
fn counted(groups: &[u32], counts: &[u32], group: u32) -> u32
    requires counts { AreCounts groups.now (length groups.now) counts.now }
    requires group_in { group < length groups.now }
    ensures { result ≡ member_count groups.now group }
{
    counts[group as usize]
}

/// The number of members of the widest group, counted in one pass over the groups.
fn counted_width(alloc: Global, groups: &[u32]) -> Result<u32, NoMemory>
    requires numbered { AreGroupsNumbered groups.now }
    requires few { length groups.now < 2 ^ 32 }
    ensures { IfOk result (λ width. width ≡ widest groups.now) }
{
    let counts = count_members(alloc, groups)?;
    let mut width = 0;
    for group in groups {
        let count = counted(groups, &counts, *group);
        if width < count {
            width = count;
        }
    }
    Ok(width)
}

impl Plan {
    /// The plan with these groups and squares. A group's number is its least member. The widest
    /// group is counted here, in time that grows with the square of the number of actions.
    pub fn of_rows(groups: Vec<u32>, must: Rows, conflict: Rows) -> Plan
        requires numbered { AreGroupsNumbered groups.items }
        requires sized { AreSized groups.items must conflict }
        ensures { result ≡ record { groups = groups.items; must = must; conflict = conflict } }
    {
        let width = width_of(&groups) as u32;
        Plan {
            groups,
            must,
            conflict,
            width,
        }
    }

    /// The same plan, whose widest group is counted in time that grows with the number of actions,
    /// by a table of as many counts.
    pub fn of_rows_in(
        alloc: Global,
        groups: Vec<u32>,
        must: Rows,
        conflict: Rows,
    ) -> Result<Plan, NoMemory>
        requires numbered { AreGroupsNumbered groups.items }
        requires sized { AreSized groups.items must conflict }
        ensures { IfOk result (λ plan. plan ≡ record { groups = groups.items; must = must; conflict = conflict }) }
    {
        let width = counted_width(alloc, &groups)?;
        Ok(Plan {
            groups,
            must,
            conflict,
            width,
        })
    }

    /// The number of actions. The number of each group is its least member.
    pub fn len(&self) -> u32
        ensures is { result ≡ length self.now.groups }
        ensures numbered { AreGroupsNumbered self.now.groups }
    {
        self.must.size
    }

    /// The number of the action's group, which is the group's least member.
    pub fn group(&self, a: u32) -> u32
        requires { a < length self.now.groups }
        ensures is { result ≡ get_or self.now.groups a 0 }
        ensures least { result ≤ a }
        ensures member { get_or self.now.groups result 0 ≡ result }
    {
        self.groups[a as usize]
    }

    /// Whether the first action must end before the second starts.
    pub fn must(&self, a: u32, b: u32) -> bool
        requires a_in { a < length self.now.groups }
        requires b_in { b < length self.now.groups }
        ensures { IsTrue result ↔ Has self.now.must a b }
    {
        self.must.has(a, b)
    }

    /// Whether the two actions can't run at one time.
    pub fn conflict(&self, a: u32, b: u32) -> bool
        requires a_in { a < length self.now.groups }
        requires b_in { b < length self.now.groups }
        ensures { IsTrue result ↔ Has self.now.conflict a b }
    {
        self.conflict.has(a, b)
    }

    /// The square of the pairs of which the first action must end before the second starts.
    pub fn must_rows(&self) -> &Rows
        ensures is { result.now ≡ self.now.must }
        ensures square { IsSquare result.now }
        ensures size { result.now.size ≡ length self.now.groups }
    {
        &self.must
    }

    /// The square of the pairs that can't run at one time.
    pub fn conflict_rows(&self) -> &Rows
        ensures is { result.now ≡ self.now.conflict }
        ensures square { IsSquare result.now }
        ensures size { result.now.size ≡ length self.now.groups }
    {
        &self.conflict
    }

    /// The number of members of the widest group, 0 where there is none.
    pub fn width(&self) -> u32
        ensures { result ≡ widest self.now.groups }
    {
        self.width
    }
}
