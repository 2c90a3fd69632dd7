//! The law of two lines, the contract of a function that does nothing.
ghost use Rattle.pst_printed_lines.specs.Lines.{LinesAreTaken};

use pst_ast::laws::answers_agree;
use pst_elab_rules::{answers_are_apart, first_breaches_are_one};
use pst_lexer::laws::each_text_has_one_outcome;
use pst_printed_answers::{models_are_taken, names_of_models_are_printed};
use pst_sources_read::at_most_one_unit;
use pst_texts::tokens_of_texts_are_one;
use pst_token::laws::each_text_has_one_reading;

/// Where a line `run` and a line `check` name the same root, seed and number of inferred actions, and
/// their sources have the same texts, and the text that is right for the first is the trace file of
/// the second, then the second is right to answer `Whole` where the first answers `Done`, and `Prefix`
/// where it answers `TargetFault` or `BodyTrap`, unless it says that its budget is spent.
pub fn lines_are_taken()
    ensures { LinesAreTaken }
{
    each_text_has_one_reading();
    each_text_has_one_outcome();
    tokens_of_texts_are_one();
    at_most_one_unit();
    answers_agree();
    first_breaches_are_one();
    answers_are_apart();
    models_are_taken();
    names_of_models_are_printed();
}
