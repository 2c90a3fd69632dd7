//! Which pool serves each reference and claim, and what breaks a rule of pools.
ghost use Rattle.std.specs.Prelude.{◌≡◌, ◌++◌, ◌∷◌, [], map, IfOk, OnOk, if◌then◌else◌};
ghost use Rattle.std.specs.List.{flat_map};
ghost use Rattle.pst_bind.specs.Choices;
ghost use Rattle.pst_bind.specs.Judging.{AreMore, choice_by, choice_for, served_by_choice};
ghost use Rattle.pst_bound_pools.specs.KeptBinds.{IsAimed};
ghost use Rattle.pst_bind.specs.ListedNeeds.{need_of, needs_at, needs_by};
ghost use Rattle.pst_bound_pools.specs.Homes.{home_place, is_home_at};
ghost use Rattle.pst_bind.specs.Needs.{homes_of};
ghost use Rattle.pst_bind.specs.Wants;
ghost use Rattle.pst_bind.specs.Wants.{AreWanted, IsWanted, need_in};

use crate::choices::{Choice, choice_of};
use crate::pool_map::Served;
use crate::serving::{explicit_candidates, nearest_default};
use crate::wants::Wanted;
use pst_ast::{Declaration, Finding};
use pst_base::{NoMemory, Place};
use pst_bound_pools::{DefaultRows, ExplicitRows, InstanceTable, stands_in};
use pst_index::Index;
use pst_name_rules::earlier;
use std::alloc::Global;

/// What is judged so far.
#[derive(Drop)]
pub struct Judged {
    /// The least of what is broken.
    pub least: Option<Finding>,
    /// What serves references and claims.
    pub served: Vec<Served>,
}

/// What the sources and their instances are judged by.
#[derive(Clone, Copy)]
pub struct Binds<'a> {
    /// For memory.
    pub alloc: Global,
    /// What the sources declare.
    pub index: &'a Index,
    /// The instances.
    pub table: &'a InstanceTable,
    /// The place of the name of each instance's component.
    pub components: &'a [Option<Place>],
    /// The pools of explicit binds.
    pub explicit: &'a ExplicitRows,
    /// The pools of default binds.
    pub defaults: &'a DefaultRows,
    /// Whether each instance stands behind the one that it stands in.
    pub behind: bool,
}

// What the default binds come to in an instance.
fn default_choice(binds: &Binds, instance: u32, wanted: &Wanted) -> Result<Choice, NoMemory>
    requires { IsWanted binds.now.index.now binds.now.defaults.now binds.now.table.now wanted.now }
    ensures { IfOk result (λ c. c ≡ Wants.default_choice_of binds.now.index.now binds.now.defaults.now binds.now.table.now wanted.now.need instance) }
{
    if let Some(choice) = wanted.choices.get(instance as usize) {
        return Ok(*choice);
    }
    let Some(object) = binds.index.type_of(&wanted.need) else {
        return Ok(Choice::Nothing);
    };
    let above = binds.table.with_those_above(binds.alloc, instance)?;
    Ok(choice_of(nearest_default(binds.defaults, above.as_slice(), object.name.place)))
}

// What the candidates of a reference or claim of an action type in an instance come to.
fn choice(
    binds: &Binds,
    action: &Declaration,
    instance: u32,
    wanted: &Wanted,
) -> Result<Choice, NoMemory>
    requires aimed { IsAimed binds.now.explicit.now }
    requires wanted { IsWanted binds.now.index.now binds.now.defaults.now binds.now.table.now wanted.now }
    ensures { IfOk result (λ c. c ≡ choice_by binds.now.index.now binds.now.explicit.now binds.now.defaults.now binds.now.table.now action.now wanted.now.need instance) }
{
    let row = explicit_candidates(
        binds.alloc,
        binds.explicit,
        binds.table,
        instance,
        action.name.id,
        wanted.need.name.id,
    )?;
    if !row.is_empty() {
        return Ok(choice_of(row));
    }
    let made = default_choice(binds, instance, wanted)?;
    Ok(made)
}

// Rule 22 or 23 at the name of a reference or claim.
fn finding(place: Place, choice: Choice) -> Option<Finding>
    ensures { result ≡ Choices.finding_at place choice }
{
    match choice {
        Choice::Nothing => Some(Finding { place, rule: 22 }),
        Choice::Several => Some(Finding { place, rule: 23 }),
        Choice::One(_) => None,
    }
}

// Adds what serves a reference or claim, where a pool does.
fn add_served(
    served: &mut Vec<Served>,
    choice: Choice,
    number: u32,
    _action: &Declaration,
    instance: u32,
    reference: u32,
    _need: &Declaration,
) -> Result<(), NoMemory>
    ensures { OnOk result (served.new.items ≡ served.old.items ++ served_by_choice (need_of number _action.now instance (reference, _need.now)) choice) }
{
    if let Choice::One(pool) = choice {
        served.push(Served {
            action: number,
            instance,
            reference,
            pool,
        })?;
    }
    Ok(())
}

// Judges a reference or claim of an action type in an instance.
fn judge_need(
    judged: &mut Judged,
    binds: &Binds,
    number: u32,
    action: &Declaration,
    instance: u32,
    reference: u32,
    wanted: &Wanted,
) -> Result<(), NoMemory>
    requires aimed { IsAimed binds.now.explicit.now }
    requires wanted { IsWanted binds.now.index.now binds.now.defaults.now binds.now.table.now wanted.now }
    ensures { OnOk result (AreMore (choice_for binds.now.index.now binds.now.explicit.now binds.now.defaults.now binds.now.table.now) (need_of number action.now instance (reference, wanted.now.need) ∷ []) judged.old judged.new) }
{
    let made = choice(binds, action, instance, wanted)?;
    judged.least = earlier(judged.least, finding(wanted.need.name.place, made));
    add_served(
        &mut judged.served,
        made,
        number,
        action,
        instance,
        reference,
        &wanted.need,
    )
}

// A place in a list as a number.
fn number_of(at: usize) -> Result<u32, NoMemory>
    ensures { IfOk result (λ number. number ≡ at) }
{
    match u32::try_from(at) {
        Ok(number) => Ok(number),
        Err(_) => Err(NoMemory),
    }
}

// Judges the references and claims of an action type in an instance.
fn judge_in(
    judged: &mut Judged,
    binds: &Binds,
    number: u32,
    action: &Declaration,
    instance: u32,
    wanted: &[Wanted],
) -> Result<(), NoMemory>
    requires aimed { IsAimed binds.now.explicit.now }
    requires wanted { AreWanted binds.now.index.now binds.now.defaults.now binds.now.table.now wanted.now }
    ensures { OnOk result (AreMore (choice_for binds.now.index.now binds.now.explicit.now binds.now.defaults.now binds.now.table.now) (needs_by number action.now instance (map need_in wanted.now)) judged.old judged.new) }
{
    for at in 0..wanted.len() {
        let reference = number_of(at)?;
        judge_need(
            judged,
            binds,
            number,
            action,
            instance,
            reference,
            &wanted[at],
        )?;
    }
    Ok(())
}

// Whether the instance of a number is one of an action type's component.
fn is_home(binds: &Binds, action: &Declaration, number: u32) -> bool
    requires { binds.now.components.now ≡ map (home_place binds.now.index.now) binds.now.table.now }
    ensures { result ≡ is_home_at binds.now.index.now binds.now.table.now action.now number }
{
    match action.inside {
        None => false,
        Some(place) => stands_in(binds.components, binds.index, binds.table, place, number),
    }
}

// Judges the references and claims of an action type in an instance, where it is one of its
// component.
fn judge_at_home(
    judged: &mut Judged,
    binds: &Binds,
    number: u32,
    action: &Declaration,
    instance: u32,
    wanted: &[Wanted],
) -> Result<(), NoMemory>
    requires components { binds.now.components.now ≡ map (home_place binds.now.index.now) binds.now.table.now }
    requires aimed { IsAimed binds.now.explicit.now }
    requires wanted { AreWanted binds.now.index.now binds.now.defaults.now binds.now.table.now wanted.now }
    ensures { OnOk result (AreMore (choice_for binds.now.index.now binds.now.explicit.now binds.now.defaults.now binds.now.table.now) (if is_home_at binds.now.index.now binds.now.table.now action.now instance then needs_by number action.now instance (map need_in wanted.now) else []) judged.old judged.new) }
{
    if is_home(binds, action, instance) {
        return judge_in(judged, binds, number, action, instance, wanted);
    }
    Ok(())
}

/// Judges the references and claims of an action type in each instance of its component.
pub fn judge_homes(
    judged: &mut Judged,
    binds: &Binds,
    number: u32,
    action: &Declaration,
    wanted: &[Wanted],
) -> Result<(), NoMemory>
    requires components { binds.now.components.now ≡ map (home_place binds.now.index.now) binds.now.table.now }
    requires aimed { IsAimed binds.now.explicit.now }
    requires wanted { AreWanted binds.now.index.now binds.now.defaults.now binds.now.table.now wanted.now }
    ensures { OnOk result (AreMore (choice_for binds.now.index.now binds.now.explicit.now binds.now.defaults.now binds.now.table.now) (flat_map (needs_at number action.now (map need_in wanted.now)) (homes_of binds.now.index.now binds.now.table.now action.now)) judged.old judged.new) }
{
    let instances = binds.table.as_slice();
    for at in 0..instances.len() {
        let instance = number_of(at)?;
        judge_at_home(judged, binds, number, action, instance, wanted)?;
    }
    Ok(())
}
