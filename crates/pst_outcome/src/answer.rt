//! The answers of the program.
ghost use Rattle.std.specs.Prelude.{◌≡◌};
ghost use Rattle.pst_outcome.specs.Status.{status_of};

use pst_base::Place;

/// What a limit is on.
#[derive(Clone, Copy, Debug, PartialEq, Eq)]
pub enum What {
    /// The bytes of the sources.
    Bytes,
    /// The bytes of a trace file.
    Trace,
    /// The tokens of the sources.
    Tokens,
    /// The component instances.
    Instances,
}

/// What a line of words was answered.
#[derive(Clone, Copy, Debug, PartialEq, Eq)]
pub enum Answer {
    /// The scenario was run whole, and its trace was printed.
    Done {
        /// How many actions it has.
        actions: u32,
    },
    /// The first legal scenario was found, and its header was printed.
    Solved {
        /// How many actions it has.
        actions: u32,
    },
    /// Each action of the first legal scenario that asks for memory has an address, and these were
    /// printed.
    Placed {
        /// How many asks there are.
        asks: u32,
    },
    /// The first legal scenario has programs for so many lanes, and these were printed.
    Static {
        /// How many instructions they have.
        instructions: u32,
    },
    /// Many seeds were searched, and what each search comes to was printed.
    Swept {
        /// How many of them have a scenario.
        found: u32,
    },
    /// The trace file is that of a whole legal trace of the first legal scenario.
    Whole,
    /// The trace file begins that of one, up to an action that failed or trapped.
    Prefix,
    /// The words are no line of a command.
    Usage {
        /// The index of the first wrong word, or the number of words where something is missing.
        word: u32,
    },
    /// The shelf has no file of that name.
    NoFile {
        /// The index of the word that names the file.
        word: u32,
    },
    /// The file couldn't be read: the shelf's count of faults rose.
    ReadFault {
        /// The index of the word that names the file.
        word: u32,
    },
    /// A count exceeds its limit.
    Large {
        /// What is counted.
        what: What,
        /// The limit plus 1.
        number: u64,
    },
    /// A source is no list of tokens.
    Lexical {
        /// Whether a number above 2^63-1 begins at the place; else no blank, comment or token begins
        /// there.
        wide: bool,
        /// The place of the first fault.
        place: Place,
    },
    /// The sources are lists of tokens, and one is no unit of the grammar within its limits.
    Syntax {
        /// Whether the token at the place is the first that breaks a limit; else no unit begins with
        /// the tokens up to it and with it.
        deep: bool,
        /// The place of the token.
        place: Place,
    },
    /// A rule is broken: the first breach.
    Rule {
        /// The place of the breach.
        place: Place,
        /// The number of the rule.
        rule: u8,
    },
    /// No legal scenario has so few inferred actions.
    NoScenario,
    /// As many live lists of choices as the budget has were passed, the last of them in this level.
    Budget {
        /// The number of inferred actions.
        level: u32,
    },
    /// An action of the first legal scenario asks for memory and has no address, and those before it
    /// have one.
    NoRoom {
        /// The action.
        action: u32,
    },
    /// The widest group of actions that start together needs more lanes than there are, or than the
    /// programs are asked for. No lane was called.
    Narrow {
        /// How many lanes it needs.
        need: u32,
        /// How many there are, or are asked for.
        have: u32,
    },
    /// A lane failed in the body of an action that runs on it: its count of faults rose, or stands at
    /// its last value. The trace up to there was printed.
    TargetFault {
        /// The lane.
        lane: u32,
        /// The action.
        action: u32,
        /// The number of the call that failed among the calls of this body, counted from 1.
        call: u32,
    },
    /// The body of an action trapped. The trace up to there was printed.
    BodyTrap {
        /// The lane on which the action runs.
        lane: u32,
        /// The action.
        action: u32,
        /// The kind of the trap.
        kind: u8,
    },
    /// The trace file isn't the text of a trace.
    BadTrace {
        /// The number of the first bad line, counted from 1.
        line: u32,
    },
    /// A line of the trace file breaks a rule.
    Illegal {
        /// The number of the first such line, counted from 1.
        line: u32,
        /// The least rule that it breaks.
        rule: u8,
    },
    /// The sink's count of faults rose; a part of the text of another answer was written.
    WriteFault,
    /// Memory ran out; nothing was written.
    NoMemory,
}

impl Answer {
    /// The exit status of the program.
    pub fn status(&self) -> u8
        ensures { result ≡ status_of self.now }
    {
        match self {
            Answer::Done { .. } | Answer::Solved { .. } | Answer::Placed { .. } => 0,
            Answer::Static { .. } | Answer::Swept { .. } => 0,
            Answer::Whole | Answer::Prefix => 0,
            Answer::Lexical { .. } | Answer::Syntax { .. } | Answer::Rule { .. } => 1,
            Answer::BadTrace { .. } => 1,
            Answer::Usage { .. } | Answer::NoFile { .. } | Answer::Narrow { .. } => 2,
            Answer::NoScenario | Answer::Illegal { .. } | Answer::NoRoom { .. } => 3,
            Answer::Budget { .. } => 4,
            Answer::TargetFault { .. } | Answer::BodyTrap { .. } => 5,
            Answer::ReadFault { .. } => 6,
            Answer::WriteFault => 7,
            Answer::NoMemory => 8,
            Answer::Large { .. } => 9,
        }
    }
}
