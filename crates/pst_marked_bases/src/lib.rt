//! Those of a type's bases that are marked, found without a walk by the others.
#![tactic(auto)]

mod leads;
mod marked;

pub use marked::MarkedBases;
