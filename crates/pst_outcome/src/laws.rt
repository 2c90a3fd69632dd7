//! The law of answers, the contract of a function that does nothing.
ghost use Rattle.pst_outcome.specs.Laws.{AnswersAreOne};

use pst_ast::laws::answers_agree;
use pst_elab_rules::{answers_are_apart, first_breaches_are_one};
use pst_legal::{bodies_end_once, first_is_one};
use pst_lexer::laws::each_text_has_one_outcome;
use pst_order::core_is_one;
use pst_place_answers::place_answers_are_one;
use pst_run_alone::{runs_are_one, traces_are_one};
use pst_scenario_answers::checks_are_one;
use pst_sources_read::at_most_one_unit;
use pst_static_answers::static_answers_are_one;
use pst_sweep_table::rows_are_one;
use pst_texts::tokens_of_texts_are_one;
use pst_token::laws::each_text_has_one_reading;

/// Where the files and the lane's calls are told and no call of the shelf failed, words have at most
/// one right answer with one text, but for the choice between a budget that is spent and another
/// answer, of a seed in a sweep too, and but for runs on several lanes whose actions start and end in
/// another order, or of which each stopped and tells of another lane.
pub fn answers_are_one()
    ensures { AnswersAreOne }
{
    each_text_has_one_reading();
    each_text_has_one_outcome();
    tokens_of_texts_are_one();
    at_most_one_unit();
    answers_agree();
    first_breaches_are_one();
    answers_are_apart();
    first_is_one();
    runs_are_one();
    traces_are_one();
    checks_are_one();
    bodies_end_once();
    core_is_one();
    place_answers_are_one();
    static_answers_are_one();
    rows_are_one();
}
