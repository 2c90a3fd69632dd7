//! The words of the command line: which lists of words are a line, and the first wrong word of the others.
#![tactic(auto)]

mod argument;
mod command;
mod key;
mod line;
mod reading;
mod value;

pub use argument::is_file_name;
pub use command::{Command, Lines};
pub use key::Key;
pub use line::{Line, Root};
pub use reading::read_words;
pub use value::number_in;
