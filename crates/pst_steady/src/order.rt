//! An order in which bases stand before what is derived from them.
use pst_base::NoMemory;
use std::alloc::Global;

// For each declaration the numbers of those that are derived from it in one step.
fn derived_of(alloc: Global, bases: &[Option<usize>]) -> Result<Vec<Vec<usize>>, NoMemory> {
    let mut derived = Vec::new(alloc);
    for _base in bases {
        derived.push(Vec::new(alloc))?;
    }
    for at in 0..bases.len() {
        if let Some(base) = bases[at] {
            if base < derived.len() {
                derived[base].push(at)?;
            }
        }
    }
    Ok(derived)
}

// The numbers of those without a base.
fn first_ones(alloc: Global, bases: &[Option<usize>]) -> Result<Vec<usize>, NoMemory> {
    let mut first = Vec::new(alloc);
    for at in 0..bases.len() {
        if bases[at].is_none() {
            first.push(at)?;
        }
    }
    Ok(first)
}

/// The numbers of declarations by those of their bases, each behind its base; those on loops of bases
/// and behind them are left out. No contract says so: who uses the order looks.
pub fn order_of(alloc: Global, bases: &[Option<usize>]) -> Result<Vec<usize>, NoMemory> {
    let derived = derived_of(alloc, bases)?;
    let mut order = first_ones(alloc, bases)?;
    for next in 0..bases.len() {
        if next >= order.len() {
            return Ok(order);
        }
        let number = order[next];
        if number < derived.len() {
            order.extend_from_slice(&derived[number])?;
        }
    }
    Ok(order)
}
