//! The references and claims of an action type, with what the default binds come to for them.
ghost use Rattle.std.specs.Prelude.{◌≡◌, IfOk, IsTrue, OnOk, map};
ghost use Rattle.pst_bind.specs.Choices.{AreBehind, AreTypeChoices};
ghost use Rattle.pst_bind.specs.Wants.{AreWanted, IsWanted, need_in};

use crate::choices::Choice;
use crate::default_choices::DefaultChoices;
use pst_ast::Declaration;
use pst_base::NoMemory;
use pst_bound_pools::{DefaultRows, InstanceTable};
use pst_index::Index;
use std::alloc::Global;

/// A reference or claim, and what the default binds come to for it in the first instances.
#[derive(Clone, Copy)]
pub struct Wanted<'a> {
    /// The reference or claim.
    pub need: Declaration,
    /// What the default binds come to, by instance.
    pub choices: &'a [Choice],
}

/// Finds what the default binds come to for references and claims, where it isn't known.
pub fn settle_defaults(
    alloc: Global,
    known: &mut DefaultChoices,
    index: &Index,
    rows: &DefaultRows,
    table: &InstanceTable,
    behind: bool,
    needs: &[Declaration],
) -> Result<(), NoMemory>
    requires behind { IsTrue behind → AreBehind table.now }
    requires known { AreTypeChoices rows.now table.now known.old.known.items }
    ensures { OnOk result (AreTypeChoices rows.now table.now known.new.known.items) }
{
    for need in needs {
        if let Some(object) = index.type_of(need) {
            known.settle(alloc, rows, table, behind, object.name.place)?;
        }
    }
    Ok(())
}

// A reference or claim, with what is known of the default binds for it.
fn want<'a>(
    known: &'a DefaultChoices,
    index: &Index,
    rows: &DefaultRows,
    table: &InstanceTable,
    need: &Declaration,
) -> Wanted<'a>
    requires { AreTypeChoices rows.now table.now known.now.known.items }
    ensures need { result.need ≡ need.now }
    ensures wanted { IsWanted index.now rows.now table.now result }
{
    let none = Wanted {
        need: *need,
        choices: &[],
    };
    let Some(object) = index.type_of(need) else {
        return none;
    };
    match known.find(rows, table, object.name.place) {
        None => none,
        Some(choices) => Wanted {
            need: *need,
            choices,
        },
    }
}

/// References and claims, with what is known of the default binds for them.
pub fn all_wanted<'a>(
    alloc: Global,
    known: &'a DefaultChoices,
    index: &Index,
    rows: &DefaultRows,
    table: &InstanceTable,
    needs: &[Declaration],
) -> Result<Vec<Wanted<'a>>, NoMemory>
    requires { AreTypeChoices rows.now table.now known.now.known.items }
    ensures needs { IfOk result (λ all. map need_in all.items ≡ needs.now) }
    ensures wanted { IfOk result (λ all. AreWanted index.now rows.now table.now all.items) }
{
    let mut all = Vec::new(alloc);
    for need in needs {
        all.push(want(known, index, rows, table, need))?;
    }
    Ok(all)
}
