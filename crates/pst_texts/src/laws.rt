//! Laws of the tokens of several texts.
ghost use Rattle.pst_texts.specs.Texts.{TokensOfTextsAreOne, OneTextHasItsOwn};

/// Texts have one table with their names alone, in the order in which they first stand, text after
/// text, and one list of tokens each in it. Those of one text alone are its own tokens.
pub fn tokens_of_texts_are_one()
    ensures texts { TokensOfTextsAreOne }
    ensures alone { OneTextHasItsOwn }
{}
