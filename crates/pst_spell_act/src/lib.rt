//! The tokens that activities spell.
#![tactic(auto)]

pub mod spell_activity;
