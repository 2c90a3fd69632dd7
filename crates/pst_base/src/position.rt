//! Places in the sources.
ghost use Rattle.std.specs.Prelude.{◌↔◌, IsTrue};
ghost use Rattle.pst_base.specs.Places.{IsBefore};
ghost use Rattle.pst_base.specs.Laws.{OneIsBefore, NoneIsBeforeItself, BeforeGoesOn};

/// A place in the sources. Places are ordered by file, then line, then column.
#[derive(Clone, Copy, Debug, PartialEq, Eq)]
pub struct Place {
    /// The number of the file, from 0 in the order in which the files are named.
    pub file: u32,
    /// The line, counted from 1.
    pub line: u32,
    /// The column in bytes, counted from 1.
    pub column: u32,
}

impl Place {
    /// Whether this place is in an earlier file than the other, or on an earlier line of the same
    /// file, or at an earlier column of the same line.
    pub fn is_before(self, other: Place) -> bool
        ensures { IsTrue result ↔ IsBefore self other }
    {
        if self.file != other.file {
            return self.file < other.file;
        }
        if self.line != other.line {
            return self.line < other.line;
        }
        self.column < other.column
    }
}

/// The order of places is total and strict: of two places one is before the other or they are the
/// same, none is before itself, and what is before an earlier place is before a later one.
pub fn places_are_ordered()
    ensures one { OneIsBefore }
    ensures never { NoneIsBeforeItself }
    ensures on { BeforeGoesOn }
{}
