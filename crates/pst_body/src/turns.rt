//! The turns that run.
ghost use Rattle.std.specs.Prelude.{◌≡◌, ◌+◌, length, slice_get, Some, MatchResult};

/// The numbers of the turns round a step, from the innermost to the outermost. Contracts see them from the outermost on.
#[derive(Clone, Copy)]
pub(crate) enum Turns<'a> {
    /// There is none.
    Nothing,
    /// There is one of this number, counted from 0, and these stand round it.
    Within(&'a Turns<'a>, u32),
}

impl Turns<'_> {
    ghost use Rattle.pst_body.specs.Turns.{indices_of};

    /// The number of the turn with so many turns round it; or else how many more there would have to be.
    fn find(&self, level: u32) -> Result<u32, u32>
        ensures { MatchResult result (λ index. slice_get (indices_of self.now) level ≡ Some index) (λ more. more + length (indices_of self.now) ≡ level) }
    {
        match self {
            Turns::Nothing => Err(level),
            Turns::Within(outer, index) => match outer.find(level) {
                Ok(found) => Ok(found),
                Err(0) => Ok(*index),
                Err(more) => Err(more - 1),
            },
        }
    }

    /// The number of the turn with so many turns round it.
    pub(crate) fn index(&self, level: u32) -> Option<u32>
        ensures { result ≡ slice_get (indices_of self.now) level }
    {
        self.find(level).ok()
    }
}
