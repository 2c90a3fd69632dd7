//! Laws about the tokens of a text, each the contract of a function that does nothing.
ghost use Rattle.pst_token.specs.Laws.{EachTextHasOneReading, TokensAreDetermined, TokensStayAsNamesGrow, TokensAreInOrder, TokensBelong, SpellingsAreReadBack};

/// Each text is read in one way: it has a token list or one fault, and never both.
pub fn each_text_has_one_reading()
    ensures { EachTextHasOneReading }
{}

/// A text has at most one token list, where the names are different texts.
pub fn tokens_are_determined()
    ensures { TokensAreDetermined }
{}

/// A token list stays that of its text as names are added to the table.
pub fn tokens_stay_as_names_grow()
    ensures { TokensStayAsNamesGrow }
{}

/// `End` stands last in a token list and only there, and the places of the tokens rise.
pub fn tokens_are_in_order()
    ensures { TokensAreInOrder }
{}

/// The tokens of a text stand in its file, and the number of each name is that of a text of the table.
pub fn tokens_belong()
    ensures { TokensBelong }
{}

/// Each reserved word and each mark is what its spelling is read as.
pub fn spellings_are_read_back()
    ensures { SpellingsAreReadBack }
{}
