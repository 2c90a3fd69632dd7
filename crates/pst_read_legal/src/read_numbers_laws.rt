//! The law of numbers.
ghost use Rattle.pst_read_legal.specs.ReadNumbersLaws.{WholeReadingsAreNumbered};

/// In a scenario that a list of choices reads whole, the needs in order name each inferred action
/// with the next number, as a supplied scenario asks for.
pub fn whole_readings_are_numbered()
    ensures { WholeReadingsAreNumbered }
{}
