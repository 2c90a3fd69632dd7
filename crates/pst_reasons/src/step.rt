// What moved the bounds along a trail.
use pst_expr::Span;

/// By what a run of changes of a trail was made.
#[derive(Clone, Copy, Debug, PartialEq, Eq)]
pub enum Cause {
    /// By a constraint, by its number.
    Constraint(u32),
    /// By the span that was given to a variable, by its place among all that were given.
    Given(u32),
}

/// The changes of a trail from a mark on, up to the mark of the next step.
#[derive(Clone, Copy, Debug, PartialEq, Eq)]
pub struct Step {
    /// By what they were made.
    pub cause: Cause,
    /// How long the trail was before.
    pub mark: usize,
}

/// A variable and the span that it was given.
#[derive(Clone, Copy, Debug, PartialEq, Eq)]
pub struct Given {
    /// The variable's number.
    pub variable: u32,
    /// Its span: a single number where the variable was given a value.
    pub span: Span,
}

/// How much there was before a variable was given a span.
#[derive(Clone, Copy, Debug, PartialEq, Eq)]
pub struct Mark {
    /// How long the trail was.
    pub trail: usize,
    /// How many steps there were.
    pub steps: usize,
}
