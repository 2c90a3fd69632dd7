//! A law of the limits.
ghost use Rattle.pst_counted_tokens.specs.Laws.{EachTokenCountsOnce};

/// For each rule of the grammar, the list of what counts at the tokens of a tree has as many
/// entries as the tree has tokens.
pub fn each_token_counts_once()
    ensures { EachTokenCountsOnce }
{}
