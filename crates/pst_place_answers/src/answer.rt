//! Answers.

/// What is answered of the memory that actions ask for.
#[derive(Clone, Copy, Debug, PartialEq, Eq)]
pub enum PlaceAnswer {
    /// Each ask has an address.
    Placed {
        /// How many asks there are.
        asks: u32,
    },
    /// An ask has no address, and those before it have one.
    NoRoom {
        /// The action whose ask it is.
        action: u32,
    },
}

/// An answer and its text.
#[derive(Drop)]
pub struct ShownPlaces {
    /// The answer.
    pub answer: PlaceAnswer,
    /// The text.
    pub text: String,
}
