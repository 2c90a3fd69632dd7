//! What stays as it is while a body runs.
use pst_expr::Span;
use pst_model::Model;
use pst_scen::{Act, Scenario};

/// An action whose body runs, and the ranges of the body's locals.
#[derive(Clone, Copy)]
pub(crate) struct Site<'a> {
    /// The model.
    pub(crate) model: &'a Model,
    /// The scenario.
    pub(crate) scenario: &'a Scenario,
    /// The number of the action.
    pub(crate) number: u32,
    /// The action.
    pub(crate) act: &'a Act,
    /// The ranges of the body's locals, in the order of the text.
    pub(crate) ranges: &'a [Span],
}
