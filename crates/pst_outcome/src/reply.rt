//! Replies.
use crate::answer::Answer;

/// An answer, and the text that is to be written for it.
#[derive(Drop)]
pub struct Reply {
    /// The answer.
    pub answer: Answer,
    /// The text.
    pub text: String,
}
