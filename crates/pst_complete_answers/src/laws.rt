//! The laws of complete answers, the contracts of functions that do nothing.
ghost use Rattle.pst_complete_answers.specs.Laws.{FoundLinesAreComplete, LegalLinesAreComplete, OtherLinesAreComplete, SweptLinesAreComplete, FoundRowsAreFixed, MissedRowsAreFixed};

use pst_ast::laws::answers_agree;
use pst_elab_rules::{answers_are_apart, first_breaches_are_one};
use pst_legal::first_is_one;
use pst_lexer::laws::each_text_has_one_outcome;
use pst_live_lists::few_lists_spend_no_budget;
use pst_sources_read::at_most_one_unit;
use pst_texts::tokens_of_texts_are_one;
use pst_token::laws::each_text_has_one_reading;

/// Where the words are a line, its sources have a model and no call fails, the answer is the good one:
/// of the first legal scenario, where there is one within the budget that can be run as the line says,
/// NoScenario where there is none, and the rows of a sweep, whatever its seeds come to. But memory may
/// run out.
pub fn lines_are_complete()
    ensures found { FoundLinesAreComplete }
    ensures legal { LegalLinesAreComplete }
    ensures none { OtherLinesAreComplete }
    ensures swept { SweptLinesAreComplete }
{
    each_text_has_one_reading();
    each_text_has_one_outcome();
    tokens_of_texts_are_one();
    at_most_one_unit();
    answers_agree();
    first_breaches_are_one();
    answers_are_apart();
    first_is_one();
    few_lists_spend_no_budget();
}

/// A row of a sweep is that of the seed's first legal scenario, or says that there is none, where fewer
/// live lists than the budget stand up to what it tells.
pub fn rows_are_fixed()
    ensures found { FoundRowsAreFixed }
    ensures none { MissedRowsAreFixed }
{
    first_is_one();
    few_lists_spend_no_budget();
}
