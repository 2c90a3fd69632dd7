//! The bases of types, as far as they declare members, found without a walk by the others.
#![tactic(auto)]

mod bases;
mod groups;

pub use bases::MemberBases;
pub use groups::MemberGroup;
