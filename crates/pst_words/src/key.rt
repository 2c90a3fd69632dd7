//! The keys.
ghost use Rattle.std.specs.Prelude.{◌≡◌};
ghost use Rattle.pst_words.specs.Table.{key_start};

/// A key of a line, which stands with its value in one word, as `seed=7`.
#[derive(Clone, Copy, Debug, PartialEq, Eq)]
pub enum Key {
    /// The root action, as `Component::Action`.
    Root,
    /// The trace file that is judged.
    Trace,
    /// The seed: 0 to 2^64-1.
    Seed,
    /// The most inferred actions: 0 to 8.
    Infer,
    /// The most live choice lists that are looked at: 1 to 10^9.
    Budget,
    /// The lanes: 1 to 16, and at most those that there are.
    Lanes,
    /// The size of the generated model: a multiple of 8 from 8 to 4,096.
    Size,
    /// The lanes of static programs: 1 to 16.
    Over,
    /// The bytes of the address space: 1 to 2^62.
    Space,
    /// The first address: 0 to 2^62.
    Base,
    /// The number of seeds: 1 to 4,096.
    Count,
    /// The first seed: 0 to 2^64-1; it and the count are together at most 2^64.
    First,
}

impl Key {
    /// What a word of the key begins with.
    pub(crate) fn start(self) -> &'static [u8]
        ensures { result.now ≡ key_start self }
    {
        match self {
            Key::Root => b"root=",
            Key::Trace => b"trace=",
            Key::Seed => b"seed=",
            Key::Infer => b"infer=",
            Key::Budget => b"budget=",
            Key::Lanes => b"lanes=",
            Key::Size => b"size=",
            Key::Over => b"over=",
            Key::Space => b"space=",
            Key::Base => b"base=",
            Key::Count => b"count=",
            Key::First => b"first=",
        }
    }
}
