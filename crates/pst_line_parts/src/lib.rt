//! What the words of a line give: its numbers, its root and the source of its generated model; and the
//! texts that are printed where its sources have no model.
#![tactic(auto)]

mod generated;
mod numbers;
mod printing;
mod root;

pub use generated::source_of;
pub use numbers::{infer_given, lanes_given, over_given, seeds_given, size_given, space_given};
pub use printing::{
    large_text, lexical_text, no_file_text, read_fault_text, rule_text, source_name, syntax_text,
};
pub use root::{RootNames, is_gen, root_of};
