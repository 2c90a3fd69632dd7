// Bounds of variables.
ghost use Rattle.std.specs.Prelude.{◌≡◌, ℕ, ◌<◌, length, slice_set};
ghost use Rattle.pst_domain.specs.Bounds.{bound_of};

use pst_expr::Span;
use std::marker::Model;

/// A span for each variable, by number, or `None` for a variable that certainly has no value.
#[derive(Debug, Drop)]
pub struct Bounds {
    spans: Vec<Option<Span>>,
}

impl Model for Bounds {
    ghost use Rattle.std.specs.Prelude.{List, Option};
    ghost use Rattle.pst_expr.specs.declared.ranges.Span.{Span};

    ghost Value = { List (Option Span) };

    ghost view = { λ b. b.spans.items };
}

impl Bounds {
    /// The bounds of these spans. It takes no memory.
    pub fn new(spans: Vec<Option<Span>>) -> Bounds
        ensures { result ≡ spans.items }
    {
        Bounds { spans }
    }

    /// The spans, in a vector. It takes no memory.
    pub fn into_spans(self) -> Vec<Option<Span>>
        ensures { result.items ≡ self }
    {
        self.spans
    }

    /// The spans.
    pub fn spans(&self) -> &[Option<Span>]
        ensures { result.now ≡ self.now }
    {
        self.spans.as_slice()
    }

    /// The bounds of a variable, `None` also beyond the list.
    pub fn get(&self, variable: u32) -> Option<Span>
        ensures { result ≡ bound_of self.now variable }
    {
        self.spans.get(variable as usize).copied().flatten()
    }

    /// Gives a variable other bounds.
    pub fn set(&mut self, variable: u32, span: Option<Span>)
        requires { variable < length self.old }
        ensures { self.new ≡ slice_set self.old variable span }
    {
        self.spans[variable as usize] = span;
    }
}
