// How far the values of a variable were tried.

/// How many values of a variable were given or skipped, in the order of the seed, and the value that it has.
#[derive(Clone, Copy, Debug, PartialEq, Eq)]
pub struct Tried {
    /// How many values were given or skipped.
    pub passed: u64,
    /// The value, `None` where it has none.
    pub value: Option<i64>,
}

// A variable, with where the trail stood before it had a value, and whether the bounds there know the values before it.
#[derive(Clone, Copy)]
pub struct Level {
    pub mark: usize,
    pub known: bool,
    pub tried: Tried,
}
