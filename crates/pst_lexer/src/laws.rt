//! Laws about lexing, each the contract of a function that does nothing.
ghost use Rattle.pst_lexer.specs.Fault.{EachTextHasOneOutcome};
ghost use Rattle.pst_lexer.specs.Lexing.{TextsStayAsNamesGrow};
ghost use Rattle.pst_lexer.specs.Numbering.{OwnTokensAreOne};

/// Each text has tokens that there is room for, or one fault, and never both.
pub fn each_text_has_one_outcome()
    ensures { EachTextHasOneOutcome }
{}

/// The tokens so far of a lexer keep their texts as names are added to the table.
pub fn texts_stay_as_names_grow()
    ensures { TextsStayAsNamesGrow }
{}

/// A text has one table with its names alone, in the order in which they first stand, and one list
/// of tokens in it.
pub fn own_tokens_are_one()
    ensures { OwnTokensAreOne }
{}
