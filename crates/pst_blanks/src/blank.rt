//! Blanks.
ghost use Rattle.std.specs.Prelude.{◌≡◌};
ghost use Rattle.pst_blanks.specs.Blanks.{with_field};

/// What a choice behind the sources fills.
#[derive(Clone, Copy, Debug, PartialEq, Eq)]
pub enum Blank {
    /// The instance of the pool that a claim of an action claims.
    Instance {
        act: u32,
        claim: u32,
    },
    /// The value of a field of the first object of a state pool.
    OfFirst {
        pool: u32,
        field: u32,
    },
    /// The value of a field of an action.
    OfAct {
        act: u32,
        field: u32,
    },
    /// The value of a field of the object that an output of an action writes.
    OfOutput {
        act: u32,
        reference: u32,
        field: u32,
    },
    /// The value of a field of the resource that a claim of an action claims.
    OfClaim {
        act: u32,
        claim: u32,
        field: u32,
    },
}

/// A blank, and where it is looked up.
#[derive(Clone, Copy, Debug, PartialEq, Eq)]
pub struct Place {
    /// The blank.
    pub blank: Blank,
    /// For the instance of a claim the pool that serves it, and nothing where none does; for a field
    /// of a first object the number of that object among the first objects; else nothing.
    pub at: Option<u32>,
}

impl Blank {
    ghost use Rattle.std.specs.Prelude.{◌≡◌};

    // The same for the field of that number.
    pub(crate) fn with_field(self, number: u32) -> Blank
        ensures { result ≡ with_field self number }
    {
        match self {
            Blank::Instance { act, claim } => Blank::Instance { act, claim },
            Blank::OfFirst { pool, .. } => Blank::OfFirst {
                pool,
                field: number,
            },
            Blank::OfAct { act, .. } => Blank::OfAct { act, field: number },
            Blank::OfOutput { act, reference, .. } => Blank::OfOutput {
                act,
                reference,
                field: number,
            },
            Blank::OfClaim { act, claim, .. } => Blank::OfClaim {
                act,
                claim,
                field: number,
            },
        }
    }
}
