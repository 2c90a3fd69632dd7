//! Laws of actions and links.
ghost use Rattle.pst_read_domains.specs.ReadActsLaws.{ActsAreOfTheirTypes, LinksJoinPools};

/// Whatever a list of choices has read of a sound model, whole or so far, for a root that isn't
/// abstract: each action is of a type that is atomic and not abstract, in an instance of the type's
/// component, and has the references of its type, each in the pool that serves it there.
pub fn acts_are_of_their_types()
    ensures { ActsAreOfTheirTypes }
{}

/// Whatever a list of choices has read, whole or so far: a link to a reference leads to one that
/// there is, in the same pool.
pub fn links_join_pools()
    ensures { LinksJoinPools }
{}
