//! Counting what types may have only so many of.
ghost use Rattle.std.specs.Prelude.{◌≡◌};
ghost use Rattle.pst_declaration_rules.specs.Counted;

use crate::member::Member;
use pst_ast::{Finding, Sort};

/// What a type may have only so many of.
#[derive(Clone, Copy, PartialEq, Eq)]
pub enum Kind {
    /// Items.
    Item,
    /// Parameters.
    Parameter,
    /// Locals.
    Local,
    /// References.
    Reference,
    /// Claims.
    Claim,
    /// Fields, where each element of an array is one.
    Field,
}

// How many there may be.
fn most_of(kind: Kind) -> u32
    ensures { result ≡ Counted.most_of kind }
{
    match kind {
        Kind::Item => 256,
        Kind::Parameter => 64,
        Kind::Local => 64,
        Kind::Reference => 16,
        Kind::Claim => 16,
        Kind::Field => 64,
    }
}

// Whether something of a sort is one of them.
fn is_of(kind: Kind, sort: Sort) -> bool
    ensures { result ≡ Counted.is_of kind sort }
{
    match (kind, sort) {
        (Kind::Item, Sort::Item { .. }) => true,
        (Kind::Parameter, Sort::Parameter) => true,
        (Kind::Local, Sort::Local) => true,
        (Kind::Reference, Sort::Reference { .. }) => true,
        (Kind::Claim, Sort::Claim { .. }) => true,
        (Kind::Field, Sort::Field { .. }) => true,
        _ => false,
    }
}

// One where something is one of them.
fn one_or_none(one: bool) -> Option<u32>
    ensures { result ≡ Counted.one_or_none one }
{
    if one { Some(1) } else { Some(0) }
}

// Fields by how many are added, and all else by one.
fn weight_by(kind: Kind, one: Option<u32>, adds: Option<u32>) -> Option<u32>
    ensures { result ≡ Counted.weight_by kind one adds }
{
    match kind {
        Kind::Field => adds,
        _ => one,
    }
}

// How many a declaration adds.
fn weight(kind: Kind, member: &Member) -> Option<u32>
    ensures { result ≡ Counted.weight kind member.now }
{
    let one = one_or_none(is_of(kind, member.declaration.sort));
    weight_by(kind, one, member.adds)
}

// So many, and those that are added, unless there are too many without them.
fn plus(most: u32, sum: Option<u64>, added: Option<u32>) -> Option<u64>
    ensures { result ≡ Counted.plus most sum added }
{
    match (sum, added) {
        (Some(sum), Some(added)) => {
            if sum > most as u64 {
                Some(sum)
            } else {
                Some(sum + added as u64)
            }
        }
        _ => None,
    }
}

// Whether there are too many with those that are added, and not without them.
fn exceeds(most: u32, sum: Option<u64>, added: Option<u32>) -> bool
    ensures { result ≡ Counted.exceeds most sum added }
{
    match (sum, added) {
        (Some(sum), Some(added)) => sum <= most as u64 && sum + added as u64 > most as u64,
        _ => false,
    }
}

/// How many there are with those of a list.
pub fn total(kind: Kind, start: Option<u64>, members: &[Member]) -> Option<u64>
    ensures { result ≡ Counted.total kind start members.now }
{
    let mut sum = start;
    for member in members {
        sum = plus(most_of(kind), sum, weight(kind, member));
    }
    sum
}

/// The first of a list with which there are too many.
pub fn over(kind: Kind, start: Option<u64>, members: &[Member]) -> Option<Finding>
    ensures { result ≡ Counted.over kind start members.now }
{
    let mut sum = start;
    for member in members {
        if exceeds(most_of(kind), sum, weight(kind, member)) {
            return Some(Finding {
                place: member.declaration.name.place,
                rule: 12,
            });
        }
        sum = plus(most_of(kind), sum, weight(kind, member));
    }
    None
}
