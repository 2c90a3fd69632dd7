//! The references and claims of all action types, judged one after another.
ghost use Rattle.std.specs.Prelude.{◌≡◌, ◌++◌, ◌+◌, [], None, IfOk, IsTrue, OnOk, if◌then◌else◌, map};
ghost use Rattle.std.specs.List.{filter_map, flat_map};
ghost use Rattle.pst_ast.specs.Sorts.{is_action};
ghost use Rattle.pst_tree.specs.declared.rows.Member.TheVariants as member;
ghost use Rattle.pst_tree.specs.Kept.{AreRows};
ghost use Rattle.pst_name_rules.specs.Leasts.{least_at};
ghost use Rattle.pst_action_needs.specs.Inheriting.{AreInherited};
ghost use Rattle.pst_bind.specs.Choices.{AreBehind, AreTypeChoices};
ghost use Rattle.pst_bound_pools.specs.Homes.{home_place};
ghost use Rattle.pst_bind.specs.Judging.{AreMore, choice_for, found_with, served_with};
ghost use Rattle.pst_bound_pools.specs.KeptBinds.{IsAimed};
ghost use Rattle.pst_bind.specs.ListedNeeds.{added_by, is_performed_by, needs_at, needs_found};
ghost use Rattle.pst_bind.specs.Needs.{homes_of};

use crate::default_choices::DefaultChoices;
use crate::judging::{Binds, Judged, judge_homes};
use crate::wants::{all_wanted, settle_defaults};
use pst_action_needs::{NeedTable, needs_at};
use pst_ast::{Declaration, Sort};
use pst_base::NoMemory;
use pst_tree::{Rows, Sites};

// Judges references and claims of an action type in each instance of its component.
fn judge_needs(
    judged: &mut Judged,
    known: &mut DefaultChoices,
    binds: &Binds,
    number: u32,
    action: &Declaration,
    needs: &[Declaration],
) -> Result<(), NoMemory>
    requires components { binds.now.components.now ≡ map (home_place binds.now.index.now) binds.now.table.now }
    requires aimed { IsAimed binds.now.explicit.now }
    requires behind { IsTrue binds.now.behind → AreBehind binds.now.table.now }
    requires known { AreTypeChoices binds.now.defaults.now binds.now.table.now known.old.known.items }
    ensures judged { OnOk result (AreMore (choice_for binds.now.index.now binds.now.explicit.now binds.now.defaults.now binds.now.table.now) (flat_map (needs_at number action.now needs.now) (homes_of binds.now.index.now binds.now.table.now action.now)) judged.old judged.new) }
    ensures known { OnOk result (AreTypeChoices binds.now.defaults.now binds.now.table.now known.new.known.items) }
{
    settle_defaults(
        binds.alloc,
        known,
        binds.index,
        binds.defaults,
        binds.table,
        binds.behind,
        needs,
    )?;
    let wanted = all_wanted(
        binds.alloc,
        known,
        binds.index,
        binds.defaults,
        binds.table,
        needs,
    )?;
    judge_homes(judged, binds, number, action, wanted.as_slice())
}

// Judges the references and claims of an action type, where it is atomic and not abstract.
fn judge_action(
    judged: &mut Judged,
    table: &mut NeedTable,
    known: &mut DefaultChoices,
    binds: &Binds,
    members: &Rows,
    sites: &Sites,
    number: u32,
    action: &Declaration,
) -> Result<(), NoMemory>
    requires members { AreRows member.Need binds.now.index.now members.now }
    requires components { binds.now.components.now ≡ map (home_place binds.now.index.now) binds.now.table.now }
    requires aimed { IsAimed binds.now.explicit.now }
    requires behind { IsTrue binds.now.behind → AreBehind binds.now.table.now }
    requires inherited { AreInherited sites.now binds.now.index.now table.old.rows.items }
    requires known { AreTypeChoices binds.now.defaults.now binds.now.table.now known.old.known.items }
    ensures judged { OnOk result (AreMore (choice_for binds.now.index.now binds.now.explicit.now binds.now.defaults.now binds.now.table.now) (if is_performed_by sites.now binds.now.index.now action.now then added_by binds.now.index.now binds.now.table.now number action.now else []) judged.old judged.new) }
    ensures inherited { OnOk result (AreInherited sites.now binds.now.index.now table.new.rows.items) }
    ensures known { OnOk result (AreTypeChoices binds.now.defaults.now binds.now.table.now known.new.known.items) }
{
    if !sites.is_concrete(action) {
        return Ok(());
    }
    match needs_at(binds.alloc, binds.index, members, sites, table, action)? {
        None => Ok(()),
        Some(needs) => judge_needs(judged, known, binds, number, action, needs.as_slice()),
    }
}

// Judges a declaration, where it is an action type, and answers the number of the next action type.
fn judge_declaration(
    judged: &mut Judged,
    table: &mut NeedTable,
    known: &mut DefaultChoices,
    binds: &Binds,
    members: &Rows,
    sites: &Sites,
    number: u32,
    action: &Declaration,
) -> Result<u32, NoMemory>
    requires members { AreRows member.Need binds.now.index.now members.now }
    requires components { binds.now.components.now ≡ map (home_place binds.now.index.now) binds.now.table.now }
    requires aimed { IsAimed binds.now.explicit.now }
    requires behind { IsTrue binds.now.behind → AreBehind binds.now.table.now }
    requires inherited { AreInherited sites.now binds.now.index.now table.old.rows.items }
    requires known { AreTypeChoices binds.now.defaults.now binds.now.table.now known.old.known.items }
    ensures next { IfOk result (λ next. next ≡ (if is_action action.now.sort then number + 1 else number)) }
    ensures judged { OnOk result (AreMore (choice_for binds.now.index.now binds.now.explicit.now binds.now.defaults.now binds.now.table.now) (if is_action action.now.sort then (if is_performed_by sites.now binds.now.index.now action.now then added_by binds.now.index.now binds.now.table.now number action.now else []) else []) judged.old judged.new) }
    ensures inherited { OnOk result (AreInherited sites.now binds.now.index.now table.new.rows.items) }
    ensures known { OnOk result (AreTypeChoices binds.now.defaults.now binds.now.table.now known.new.known.items) }
{
    match action.sort {
        Sort::Action { .. } => {
            let Some(next) = number.checked_add(1) else {
                return Err(NoMemory);
            };
            judge_action(judged, table, known, binds, members, sites, number, action)?;
            Ok(next)
        }
        _ => Ok(number),
    }
}

/// Judges the references and claims of the atomic action types that aren't abstract, in each
/// instance of their components, by action, instance and reference. `NoMemory` also comes where a
/// number is beyond 2^32.
pub fn judge(binds: &Binds, members: &Rows, sites: &Sites) -> Result<Judged, NoMemory>
    requires members { AreRows member.Need binds.now.index.now members.now }
    requires components { binds.now.components.now ≡ map (home_place binds.now.index.now) binds.now.table.now }
    requires aimed { IsAimed binds.now.explicit.now }
    requires behind { IsTrue binds.now.behind → AreBehind binds.now.table.now }
    ensures least { IfOk result (λ judged. judged.least ≡ least_at (found_with (choice_for binds.now.index.now binds.now.explicit.now binds.now.defaults.now binds.now.table.now)) (needs_found sites.now binds.now.index.now binds.now.table.now) None) }
    ensures served { IfOk result (λ judged. judged.served.items ≡ filter_map (served_with (choice_for binds.now.index.now binds.now.explicit.now binds.now.defaults.now binds.now.table.now)) (needs_found sites.now binds.now.index.now binds.now.table.now)) }
{
    let mut judged = Judged {
        least: None,
        served: Vec::new(binds.alloc),
    };
    let mut table = NeedTable::new(binds.alloc);
    let mut known = DefaultChoices::new(binds.alloc);
    let mut number = 0;
    for action in binds.index.as_slice() {
        number = judge_declaration(
            &mut judged,
            &mut table,
            &mut known,
            binds,
            members,
            sites,
            number,
            action,
        )?;
    }
    Ok(judged)
}
