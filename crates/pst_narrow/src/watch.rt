//! An index from variables to the constraints in which they stand.
ghost use Rattle.std.specs.Prelude.{◌≡◌, ℕ, ◌+◌, ◌^◌, ◌<◌, ◌≤◌, length, map, Contains, OnOk, IfOk};
ghost use Rattle.pst_expr.specs.Tree.{view};
ghost use Rattle.pst_narrow.specs.Narrowing.{HaveVariablesBelow};
ghost use Rattle.pst_narrow.specs.Watch.{AreAdded, AreWatched, Has, IsRow, IsWatch};

use crate::mentions::add_mentioned;
use pst_base::NoMemory;
use pst_expr::Expr;
use std::alloc::Global;

/// For each constraint its variables, and for each variable the constraints in which it stands.
#[derive(Drop)]
pub struct Watch {
    pub(crate) mentioned: Vec<Vec<u32>>,
    pub(crate) watching: Vec<Vec<u32>>,
}

// Rows without a number.
fn empty_rows(alloc: Global, count: usize) -> Result<Vec<Vec<u32>>, NoMemory>
    ensures long { IfOk result (λ rows. length rows.items ≡ count) }
    ensures none { IfOk result (λ rows. (a b : ℕ) → Has rows.items a b → ⊥) }
{
    let mut rows = Vec::new(alloc);
    for _at in 0..count {
        rows.push(Vec::new(alloc))?;
    }
    Ok(rows)
}

// Adds a number to a row.
fn add_to_row(rows: &mut [Vec<u32>], at: usize, number: u32) -> Result<(), NoMemory>
    requires { at < length rows.old }
    ensures { OnOk result (AreAdded (λ a b. (a ≡ at) × (b ≡ number)) rows.old rows.new) }
{
    rows[at].push(number)?;
    Ok(())
}

// Adds a number to each of some rows.
fn add_to_rows(rows: &mut [Vec<u32>], places: &[u32], number: u32) -> Result<(), NoMemory>
    requires { (a : ℕ) → Contains places.now a → a < length rows.old }
    ensures { OnOk result (AreAdded (λ a b. Contains places.now a × (b ≡ number)) rows.old rows.new) }
{
    for place in places {
        add_to_row(rows, *place as usize, number)?;
    }
    Ok(())
}

// Adds a constraint, whose number is that of the rows so far.
fn add_constraint(
    alloc: Global,
    constraints: &[Expr],
    number: usize,
    mentioned: &mut Vec<Vec<u32>>,
    watching: &mut [Vec<u32>],
) -> Result<(), NoMemory>
    requires number { number < length constraints.now }
    requires few { length constraints.now < 2 ^ 32 }
    requires small { length watching.old ≤ 2 ^ 32 }
    requires variables { HaveVariablesBelow (length watching.old) (map view constraints.now) }
    requires watched { AreWatched (map view constraints.now) number (length watching.old) mentioned.old.items watching.old }
    ensures { OnOk result (AreWatched (map view constraints.now) (number + 1) (length watching.old) mentioned.new.items watching.new) }
{
    let mut variables = Vec::new(alloc);
    add_mentioned(&constraints[number], &mut variables)?;
    add_to_rows(watching, variables.as_slice(), number as u32)?;
    mentioned.push(variables)?;
    Ok(())
}

impl Watch {
    /// The index of constraints over so many variables.
    pub fn new(alloc: Global, constraints: &[Expr], variables: usize) -> Result<Watch, NoMemory>
        requires { HaveVariablesBelow variables (map view constraints.now) }
        ensures { IfOk result (λ watch. IsWatch (map view constraints.now) variables watch) }
    {
        if constraints.len() > u32::MAX as usize || variables > u32::MAX as usize {
            return Err(NoMemory);
        }
        let mut mentioned = Vec::new(alloc);
        let mut watching = empty_rows(alloc, variables)?;
        for number in 0..constraints.len() {
            add_constraint(
                alloc,
                constraints,
                number,
                &mut mentioned,
                watching.as_mut_slice(),
            )?;
        }
        Ok(Watch {
            mentioned,
            watching,
        })
    }

    /// The numbers of the constraints in which a variable stands.
    pub fn constraints_of(&self, variable: u32) -> &[u32]
        requires { variable < length self.now.watching.items }
        ensures { IsRow self.now.watching.items variable result.now }
    {
        self.watching[variable as usize].as_slice()
    }

    /// The variables of a constraint, by its number.
    pub fn variables_of(&self, constraint: u32) -> &[u32]
        requires { constraint < length self.now.mentioned.items }
        ensures { IsRow self.now.mentioned.items constraint result.now }
    {
        self.mentioned[constraint as usize].as_slice()
    }
}
