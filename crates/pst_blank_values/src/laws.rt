//! The law of filled blanks.
ghost use Rattle.pst_blank_values.specs.Laws.{FilledBlanksStand};

/// Where nothing is filled in yet, a scenario with options in its blanks is the same but for the
/// values, and in each blank stands the value of its option.
pub fn filled_blanks_stand()
    ensures { FilledBlanksStand }
{}
