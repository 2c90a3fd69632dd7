//! Which constraints of a scenario are refused at what is known of it, and which don't hold.
#![tactic(auto)]

mod acts;
mod fails;
mod far;
mod inlines;
mod listed;
mod made;
mod places;
mod single;
mod site;
mod statement;
mod whole;

pub use far::some_far;
pub use inlines::{Sought, content_has, has_inlines};
pub use made::{is_inline_refused, is_made_refused};
pub use places::places_of;
pub use single::{is_act_refused, is_compound_refused, is_first_refused};
pub use statement::{Stated, statement_behind, statement_of};
pub use whole::{some_refused, some_unmet};
