//! The commands.
ghost use Rattle.std.specs.Prelude.{◌≡◌, MatchOption};
ghost use Rattle.pst_words.specs.Table.{command_text, needed as needed_keys, optional as optional_keys, fewest_files as fewest, most_files as most, is_served};

use crate::key::Key;

/// A command of the program, which is the first word of a line.
#[derive(Clone, Copy, Debug, PartialEq, Eq)]
pub enum Command {
    /// Finds the first legal scenario, runs it and prints its trace.
    Run,
    /// Prints the scenario's header without running it.
    Solve,
    /// Judges a trace file against the scenario.
    Check,
    /// Runs a generated model of a given size and prints counts.
    Gen,
    /// Prints one program for each lane.
    Static,
    /// Prints addresses for the actions that ask for memory.
    Place,
    /// Searches many seeds.
    Sweep,
}

impl Command {
    /// The command of this name.
    pub(crate) fn named(word: &str) -> Option<Command>
        ensures { MatchOption result ((c : Command) → word.now ≡ command_text c → ⊥) (λ c. word.now ≡ command_text c) }
    {
        if word == "run" {
            return Some(Command::Run);
        }
        if word == "solve" {
            return Some(Command::Solve);
        }
        if word == "check" {
            return Some(Command::Check);
        }
        if word == "gen" {
            return Some(Command::Gen);
        }
        if word == "static" {
            return Some(Command::Static);
        }
        if word == "place" {
            return Some(Command::Place);
        }
        if word == "sweep" {
            return Some(Command::Sweep);
        }
        None
    }

    /// The keys that a line of the command must have.
    pub fn needed(self) -> &'static [Key]
        ensures { result.now ≡ needed_keys self }
    {
        match self {
            Command::Run => &[Key::Root],
            Command::Solve => &[Key::Root],
            Command::Check => &[Key::Root, Key::Trace],
            Command::Gen => &[Key::Size],
            Command::Static => &[Key::Root],
            Command::Place => &[Key::Root, Key::Space],
            Command::Sweep => &[Key::Root, Key::Count],
        }
    }

    /// The keys that a line of the command may have beside.
    pub fn optional(self) -> &'static [Key]
        ensures { result.now ≡ optional_keys self }
    {
        match self {
            Command::Run => &[Key::Seed, Key::Infer, Key::Budget, Key::Lanes],
            Command::Solve => &[Key::Seed, Key::Infer, Key::Budget],
            Command::Check => &[Key::Seed, Key::Infer, Key::Budget],
            Command::Gen => &[Key::Seed, Key::Lanes],
            Command::Static => &[Key::Seed, Key::Infer, Key::Budget, Key::Over],
            Command::Place => &[Key::Base, Key::Seed, Key::Infer, Key::Budget],
            Command::Sweep => &[Key::First, Key::Infer, Key::Budget],
        }
    }

    /// The fewest files of a line.
    pub fn fewest_files(self) -> usize
        ensures { result ≡ fewest self }
    {
        if self == Command::Gen { 0 } else { 1 }
    }

    /// The most files of a line.
    pub fn most_files(self) -> usize
        ensures { result ≡ most self }
    {
        if self == Command::Gen { 0 } else { 16 }
    }
}

/// Which commands a call serves.
#[derive(Clone, Copy, Debug, PartialEq, Eq)]
pub enum Lines {
    /// Every command.
    All,
    /// Every command but `sweep`.
    WithoutSweep,
    /// `sweep` alone.
    SweepAlone,
}

impl Lines {
    /// Whether the command is served.
    pub fn serves(self, command: Command) -> bool
        ensures { result ≡ is_served self command }
    {
        match self {
            Lines::All => true,
            Lines::WithoutSweep => command != Command::Sweep,
            Lines::SweepAlone => command == Command::Sweep,
        }
    }
}
