//! The elaborated model of the sources: action types, objects, component instances, pools and
//! functions, with every name resolved to a number.
//!
//! A model is made by elaboration or by a test. Contracts see it as a tree of plain data, which
//! `specs/` defines, and two models with one tree are the same model.
#![tactic(auto)]

mod action;
mod activity;
mod body;
mod constraint;
mod laws;
mod model;
mod object;

pub use action::{ActionType, Claim, Content, Field, Reference};
pub use activity::{Activity, Arm, Branch, Join, Step, Tie};
pub use body::{BodyStep, Source};
pub use constraint::{Constraint, Slot};
pub use laws::trials_of_sound_models;
pub use model::{Function, Model, Part, Pool, Serve};
pub use object::{ObjectKind, ObjectType};
