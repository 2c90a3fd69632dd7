//! Counting the members of all types, each behind its base.
ghost use Rattle.std.specs.Prelude.{◌≡◌, ◌<◌, ℕ, length, slice_get, slice_index_or, Some, None, IfOk, OnOk};
ghost use Rattle.pst_declaration_rules.specs.Tallied.{AreKnown, AreTallied, IsTallied};
ghost use Rattle.pst_declaration_rules.specs.declared.member.Member.{Member as AMember};
ghost use Rattle.pst_declaration_rules.specs.declared.tally.Tally.{Tally as ATally};

use crate::grouped::group_at;
use crate::shape::shape_at;
use crate::sources::TypeSources;
use crate::tally::{Tally, start_of, with_own};
use pst_ast::Declaration;
use pst_base::NoMemory;
use std::alloc::Global;

// The counts of a declaration, by those of its base.
fn tally_of(
    known: &TypeSources,
    tallies: &[Option<Tally>],
    declaration: &Declaration,
) -> Option<Tally>
    requires known { AreKnown known.now }
    requires tallied { AreTallied known.now tallies.now }
    ensures { (t : ATally) → result ≡ Some t → IsTallied known.now declaration.now t }
{
    match start_of(known, tallies, declaration) {
        None => None,
        Some(start) => {
            let own = group_at(known.scopes, declaration.name.place);
            let shape = shape_at(known.sites, declaration.name.place);
            Some(with_own(&start, own, shape))
        }
    }
}

// Those of the declaration of a number.
fn tally_at(known: &TypeSources, tallies: &[Option<Tally>], at: usize) -> Option<Tally>
    requires known { AreKnown known.now }
    requires tallied { AreTallied known.now tallies.now }
    ensures { (t : ATally) → result ≡ Some t → (m : AMember) → slice_get known.now.members.now at ≡ Some m → IsTallied known.now m.declaration t }
{
    if at >= known.members.len() {
        return None;
    }
    tally_of(known, tallies, &known.members[at].declaration)
}

// Keeps the counts of a declaration.
fn keep(known: &TypeSources, tallies: &mut [Option<Tally>], at: usize, tally: Tally)
    requires tallied { AreTallied known.now tallies.old }
    requires within { at < length tallies.old }
    requires right { (m : AMember) → slice_get known.now.members.now at ≡ Some m → IsTallied known.now m.declaration tally }
    ensures { AreTallied known.now tallies.new }
{
    tallies[at] = Some(tally);
}

// Counts the members of a declaration, where those of its base are counted.
fn settle(known: &TypeSources, tallies: &mut [Option<Tally>], at: usize)
    requires known { AreKnown known.now }
    requires tallied { AreTallied known.now tallies.old }
    ensures { AreTallied known.now tallies.new }
{
    if at >= tallies.len() {
        return;
    }
    if let Some(tally) = tally_at(known, tallies, at) {
        keep(known, tallies, at, tally);
    }
}

// The number of a declaration's base.
fn next_of(known: &TypeSources, at: usize) -> Option<usize> {
    if at >= known.members.len() {
        return None;
    }
    let base = known.index.base_of(&known.members[at].declaration)?;
    known.places.number(base.name.place)
}

// A declaration, its base, the base's base and so on, up to the first that was met before.
fn chain_from(known: &TypeSources, met: &mut [bool], from: usize) -> Result<Vec<u32>, NoMemory> {
    let mut chain = Vec::new(known.alloc);
    let mut at = from;
    for _ in 0..known.members.len() {
        if at >= met.len() || met[at] {
            break;
        }
        met[at] = true;
        let Ok(number) = u32::try_from(at) else {
            break;
        };
        chain.push(number)?;
        let Some(next) = next_of(known, at) else {
            break;
        };
        at = next;
    }
    Ok(chain)
}

// Counts the members of declarations, from the last on.
fn settle_chain(known: &TypeSources, tallies: &mut [Option<Tally>], mut chain: Vec<u32>)
    requires known { AreKnown known.now }
    requires tallied { AreTallied known.now tallies.old }
    ensures { AreTallied known.now tallies.new }
{
    while let Some(number) = chain.pop() {
        settle(known, tallies, number as usize);
    }
}

// Counts the members of all declarations.
fn settle_all(known: &TypeSources, tallies: &mut [Option<Tally>]) -> Result<(), NoMemory>
    requires known { AreKnown known.now }
    requires tallied { AreTallied known.now tallies.old }
    ensures { OnOk result (AreTallied known.now tallies.new) }
{
    let mut met = vec![in known.alloc; false; known.members.len()]?;
    for at in 0..known.members.len() {
        let chain = chain_from(known, met.as_mut_slice(), at)?;
        settle_chain(known, tallies, chain);
    }
    Ok(())
}

// No counts yet.
fn without_tallies(alloc: Global, count: usize) -> Result<Vec<Option<Tally>>, NoMemory>
    ensures { IfOk result (λ tallies. (n : ℕ) → slice_index_or tallies.items n None ≡ None) }
{
    let mut tallies = Vec::new(alloc);
    for _declaration in 0..count {
        tallies.push(None)?;
    }
    Ok(tallies)
}

// The same, as counts of no declaration.
fn no_tallies(known: &TypeSources) -> Result<Vec<Option<Tally>>, NoMemory>
    ensures { IfOk result (λ tallies. AreTallied known.now tallies.items) }
{
    without_tallies(known.alloc, known.members.len())
}

/// The counts of all declarations, by their numbers; none where bases lead back to one.
pub fn tallies_of(known: &TypeSources) -> Result<Vec<Option<Tally>>, NoMemory>
    requires { AreKnown known.now }
    ensures { IfOk result (λ tallies. AreTallied known.now tallies.items) }
{
    let mut tallies = no_tallies(known)?;
    settle_all(known, tallies.as_mut_slice())?;
    Ok(tallies)
}
