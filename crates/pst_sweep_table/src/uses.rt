//! How often each action type is used.
ghost use Rattle.std.specs.Prelude.{◌≡◌, ◌<◌, ◌^◌, length, get_or, map, replicate, IfOk};
ghost use Rattle.std.specs.List.{All, range_with_len};
ghost use Rattle.pst_scen.specs.declared.act.Act.{Act as ActRow};
ghost use Rattle.pst_sweep_table.specs.Uses.{AreAscending, IsFirstFrom, used_in};
ghost use Rattle.pst_sweep_table.specs.Counts.{count_of};

use crate::counting::{counts_of, used_types};
use pst_base::NoMemory;
use pst_scen::Scenario;
use std::alloc::Global;
use std::marker::Model;

/// How many actions are of each type. Contracts see the list of these numbers, by type. Kept are those
/// above 0 alone.
#[derive(Debug, Drop)]
pub struct Uses {
    types: usize,
    used: Vec<Use>,
}

/// A type with at least one action.
#[derive(Clone, Copy, Debug, PartialEq, Eq)]
pub(crate) struct Use {
    pub(crate) action: usize,
    pub(crate) count: u32,
}

impl Model for Uses {
    ghost use Rattle.std.specs.Prelude.{ℕ, List};

    ghost Value = { List ℕ };

    ghost use Rattle.pst_sweep_table.specs.Kept.{counts_in, AreKept};

    ghost view = { counts_in };

    ghost invariant = { AreKept };
}

/// The number of types before that one.
fn count_before(used: &[Use], action: usize) -> usize
    requires { AreAscending used.now }
    ensures { IsFirstFrom used.now action result }
{
    used.partition_point(|one| one.action < action)
}

/// How many actions are of that type.
fn count_in(used: &[Use], action: usize) -> u32
    requires { AreAscending used.now }
    ensures { result ≡ used_in used.now action }
{
    let at = count_before(used, action);
    if at == used.len() {
        return 0;
    }
    if used[at].action != action {
        return 0;
    }
    used[at].count
}

impl Uses {
    /// No type is used, of so many. This takes no memory.
    pub fn none(alloc: Global, types: usize) -> Uses
        ensures { result ≡ replicate types 0 }
    {
        Uses {
            types,
            used: Vec::new(alloc),
        }
    }

    /// The types of a scenario's actions, of so many types.
    pub fn of(alloc: Global, types: usize, scenario: &Scenario) -> Result<Uses, NoMemory>
        requires types { All (λ (act : ActRow). act.action < types) scenario.now.actions }
        requires few { length scenario.now.actions < 2 ^ 32 }
        ensures { IfOk result (λ uses. uses ≡ map (count_of scenario.now) (range_with_len 0 types)) }
    {
        let counts = counts_of(alloc, scenario.actions.as_slice(), types)?;
        let used = used_types(alloc, &counts)?;
        Ok(Uses { types, used })
    }

    /// How many actions are of the type of that number in a list of types.
    pub fn count_at(&self, number: usize) -> u32
        requires { number < length self.now }
        ensures { result ≡ get_or self.now number 0 }
    {
        count_in(&self.used, number)
    }

    /// How many actions are of the type of that number.
    pub fn count(&self, action: u32) -> u32
        requires { action < length self.now }
        ensures { result ≡ get_or self.now action 0 }
    {
        self.count_at(action as usize)
    }
}
