//! The constraints that rest on the fields of a compound action while its fields are being read: its own, those
//! written at the traversal that made it, and those of the action round it that name its fields by the handle of the
//! traversal. They tell which values of the next field needn't be tried.
#![tactic(auto)]

mod bounds;
mod laws;
mod subject;
mod values;
mod written;

pub use laws::excluded_fields_hold_nothing;
pub use values::values_of_fields;
