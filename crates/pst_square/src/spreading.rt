//! Pairs with one member of a group, spread to all its members.
ghost use Rattle.std.specs.Prelude.{◌≡◌, ◌≤◌, ◌<◌, ◌+◌, ◌↔◌, ℕ, length, get_or, IsTrue, IfOk};
ghost use Rattle.pst_scen.specs.Rows.{Has};
ghost use Rattle.pst_square.specs.Squares.{Adds, IsPair, IsInRow};
ghost use Rattle.pst_square.specs.Listed.{ListsAll};
ghost use Rattle.pst_square.specs.Spread.{IsFollower, IsSpread, IsSpreading, IsGathered, IsShared, AreOwn};

use crate::square::Square;
use pst_base::NoMemory;
use std::alloc::Global;

/// Whether the action isn't the one after which its group is numbered.
fn is_follower(groups: &[u32], b: u32) -> bool
    requires { b < length groups.now }
    ensures { IsTrue result ↔ IsFollower groups.now b }
{
    groups[b as usize] != b
}

/// Appends the action, where it isn't the one after which its group is numbered.
fn push_follower(followers: &mut Vec<u32>, groups: &[u32], b: u32) -> Result<(), NoMemory>
    requires b_in { b < length groups.now }
    requires before { ListsAll (IsFollower groups.now) b followers.old.items }
    ensures { IfOk result (λ u. ListsAll (IsFollower groups.now) (b + 1) followers.new.items) }
{
    if is_follower(groups, b) {
        followers.push(b)?;
    }
    Ok(())
}

/// The actions that aren't those after which their groups are numbered.
fn followers_of(alloc: Global, groups: &[u32], count: u32) -> Result<Vec<u32>, NoMemory>
    requires { count ≡ length groups.now }
    ensures { IfOk result (λ followers. ListsAll (IsFollower groups.now) count followers.items) }
{
    let mut followers = Vec::new(alloc);
    for b in 0..count {
        push_follower(&mut followers, groups, b)?;
    }
    Ok(followers)
}

/// Adds the pair with the one after which the action's group is numbered, where there is that with
/// the action.
fn gather(square: &mut Square, groups: &[u32], a: u32, b: u32)
    requires own { AreOwn groups.now square.old.size }
    requires many { length groups.now ≡ square.old.size }
    requires a_in { a < square.old.size }
    requires b_in { b < square.old.size }
    ensures spreading { IsSpreading square.old square.new groups.now a }
    ensures gathered { IsGathered square.old square.new groups.now a b }
{
    if square.has(a, b) {
        square.add(a, groups[b as usize]);
    }
}

/// Adds the pair with the action, where there is that with the one after which its group is
/// numbered.
fn share(square: &mut Square, groups: &[u32], a: u32, b: u32)
    requires own { AreOwn groups.now square.old.size }
    requires many { length groups.now ≡ square.old.size }
    requires a_in { a < square.old.size }
    requires b_in { b < square.old.size }
    ensures spreading { IsSpreading square.old square.new groups.now a }
    ensures shared { IsShared square.old square.new groups.now a b }
{
    if square.has(a, groups[b as usize]) {
        square.add(a, b);
    }
}

/// Gathers the pairs of the row at those after which groups are numbered.
fn gather_row(square: &mut Square, groups: &[u32], followers: &[u32], a: u32)
    requires own { AreOwn groups.now square.old.size }
    requires many { length groups.now ≡ square.old.size }
    requires followers { ListsAll (IsFollower groups.now) square.old.size followers.now }
    requires a_in { a < square.old.size }
    ensures spreading { IsSpreading square.old square.new groups.now a }
    ensures gathered { (b : ℕ) → b < square.old.size → IsGathered square.old square.new groups.now a b }
{
    for i in 0..followers.len() {
        gather(square, groups, a, followers[i]);
    }
}

/// Shares the pairs of the row with those after which groups are numbered.
fn share_row(square: &mut Square, groups: &[u32], followers: &[u32], a: u32)
    requires own { AreOwn groups.now square.old.size }
    requires many { length groups.now ≡ square.old.size }
    requires followers { ListsAll (IsFollower groups.now) square.old.size followers.now }
    requires a_in { a < square.old.size }
    ensures spreading { IsSpreading square.old square.new groups.now a }
    ensures shared { (b : ℕ) → b < square.old.size → IsShared square.old square.new groups.now a b }
{
    for i in 0..followers.len() {
        share(square, groups, a, followers[i]);
    }
}

/// Spreads the pairs of the row to all members of the groups.
fn spread_row(square: &mut Square, groups: &[u32], followers: &[u32], a: u32)
    requires own { AreOwn groups.now square.old.size }
    requires many { length groups.now ≡ square.old.size }
    requires followers { ListsAll (IsFollower groups.now) square.old.size followers.now }
    requires a_in { a < square.old.size }
    ensures { Adds square.old square.new (IsInRow (IsSpread square.old groups.now) a) }
{
    gather_row(square, groups, followers, a);
    share_row(square, groups, followers, a);
}

/// Spreads the pairs of all rows.
fn spread_rows(square: &mut Square, groups: &[u32], followers: &[u32], count: u32)
    requires own { AreOwn groups.now square.old.size }
    requires many { length groups.now ≡ square.old.size }
    requires followers { ListsAll (IsFollower groups.now) square.old.size followers.now }
    requires count { square.old.size ≡ count }
    ensures { Adds square.old square.new (IsSpread square.old groups.now) }
{
    for a in 0..count {
        spread_row(square, groups, followers, a);
    }
}

/// Adds each pair whose second action is of a group with a member that the first has the pair with.
pub fn spread(
    alloc: Global,
    square: &mut Square,
    groups: &[u32],
    count: u32,
) -> Result<(), NoMemory>
    requires own { AreOwn groups.now square.old.size }
    requires many { length groups.now ≡ square.old.size }
    requires count { square.old.size ≡ count }
    ensures { IfOk result (λ u. Adds square.old square.new (IsSpread square.old groups.now)) }
{
    let followers = followers_of(alloc, groups, count)?;
    spread_rows(square, groups, &followers, count);
    Ok(())
}
