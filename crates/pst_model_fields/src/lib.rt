//! The fields of the types of a model.
#![tactic(auto)]

mod fields;

pub use fields::model_fields;
pub use pst_field_domains::FieldDomains;
