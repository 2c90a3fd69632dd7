//! The numbers of the names that are declared in the text of a type.
ghost use Rattle.std.specs.Prelude.{◌≡◌, ◌++◌, ◌∷◌, [], List, IfOk, OnOk, if◌then◌else◌};
ghost use Rattle.std.specs.HashMap.{get};
ghost use Rattle.pst_numbers.specs.NumberKeys.{same_member_key, same_place_key};
ghost use Rattle.pst_numbers.specs.Ranked.{HasRanks, IsCounted, IsRanked, counts_here, count_of, or_new};

use crate::keys::{MemberKey, PlaceKey, member_key, place_key};
use crate::listed::sort_of;
use pst_ast::Declaration;
use pst_base::{NoMemory, Place};
use std::alloc::Global;
use std::collections::HashMap;

// The type in whose text a name is declared that counts there: nested types don't.
fn counts_in(declaration: &Declaration) -> Option<Place>
    ensures { result ≡ counts_here declaration.now }
{
    if sort_of(declaration.sort).is_some() {
        return None;
    }
    declaration.inside
}

// How many names have been counted in the text of a type.
fn count_in(counts: &HashMap<PlaceKey, u32>, type_: PlaceKey) -> u32
    ensures { result ≡ count_of (get same_place_key counts.now) type_ }
{
    counts.get(&type_).copied().unwrap_or(0)
}

// Sets how many names have been counted in the text of a type.
fn set_count(
    counts: &mut HashMap<PlaceKey, u32>,
    type_: PlaceKey,
    count: u32,
) -> Result<(), NoMemory>
    ensures { OnOk result ((q : PlaceKey) → count_of (get same_place_key counts.new) q ≡ (if same_place_key q type_ then count else count_of (get same_place_key counts.old) q)) }
{
    counts.insert(type_, count)?;
    Ok(())
}

// Keeps the number of a name, where it has none yet.
fn keep_rank(
    ranks: &mut HashMap<MemberKey, u32>,
    member: MemberKey,
    rank: u32,
) -> Result<(), NoMemory>
    ensures { OnOk result ((q : MemberKey) → get same_member_key ranks.new q ≡ or_new (get same_member_key ranks.old q) (same_member_key q member) rank) }
{
    if !ranks.contains_key(&member) {
        ranks.insert(member, rank)?;
    }
    Ok(())
}

// Counts a further declaration in the text of a type.
fn count(
    counts: &mut HashMap<PlaceKey, u32>,
    ranks: &mut HashMap<MemberKey, u32>,
    inside: Place,
    name: Place,
) -> Result<(), NoMemory>
    ensures { OnOk result (IsCounted (get same_place_key counts.old) (get same_member_key ranks.old) inside name (get same_place_key counts.new) (get same_member_key ranks.new)) }
{
    let type_ = place_key(inside);
    let Some(rank) = count_in(counts, type_).checked_add(1) else {
        return Err(NoMemory);
    };
    keep_rank(ranks, member_key(inside, name), rank)?;
    set_count(counts, type_, rank)
}

// Counts a further declaration, where it counts in the text of a type.
#[tactic(auto, using(crate::proofs::Counting::passed_by))]
fn count_declaration(
    counts: &mut HashMap<PlaceKey, u32>,
    ranks: &mut HashMap<MemberKey, u32>,
    declaration: &Declaration,
) -> Result<(), NoMemory>
    ensures { OnOk result ((ps : List Declaration) → IsRanked ps (get same_place_key counts.old) (get same_member_key ranks.old) → IsRanked (ps ++ declaration.now ∷ []) (get same_place_key counts.new) (get same_member_key ranks.new)) }
{
    match counts_in(declaration) {
        None => Ok(()),
        Some(inside) => {
            count(counts, ranks, inside, declaration.name.place)?;
            Ok(())
        }
    }
}

/// The number of each name among those that are declared in the text of a type, from 1.
pub fn ranks(
    alloc: Global,
    declarations: &[Declaration],
) -> Result<HashMap<MemberKey, u32>, NoMemory>
    ensures { IfOk result (λ ranks. HasRanks declarations.now (get same_member_key ranks)) }
{
    let mut counts = HashMap::new(alloc);
    let mut ranks = HashMap::new(alloc);
    for declaration in declarations {
        count_declaration(&mut counts, &mut ranks, declaration)?;
    }
    Ok(ranks)
}
