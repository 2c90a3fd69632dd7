//! The pools of the component instances, and those that binds give to references and claims.
#![tactic(auto)]

mod bound;
mod default_rows;
mod explicit_rows;
mod instance_table;
mod pool_table;

pub use bound::{components_of, stands_in};
pub use default_rows::{DefaultRows, ObjectKey};
pub use explicit_rows::{AimKey, ExplicitRows, TargetKey};
pub use instance_table::InstanceTable;
pub use pool_table::{ListedPool, PoolTable, component_of};
pub use pst_pool_binds::{FoundBind, FoundDefault, default_binds, explicit_binds};
