//! The law of names, the contract of a function that does nothing.
ghost use Rattle.pst_own_names.specs.Names.{NamesOfTextsAreNames};

/// Each text of the own table of texts is a name.
pub fn names_of_texts_are_names()
    ensures { NamesOfTextsAreNames }
{}
