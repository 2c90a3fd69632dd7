//! Parses types, and the declarations that stand in other declarations: fields, references, claims,
//! members, enums, functions, pools, and what is bound to pools.
#![tactic(auto)]

pub mod enums;
pub mod keeping;
pub mod laws;
pub mod members;
pub mod pools;
pub mod types;
