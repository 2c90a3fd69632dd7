//! The values of an enum as joined spans.
ghost use Rattle.std.specs.Prelude.{◌≡◌, IfOk};
ghost use Rattle.pst_joined_spans.specs.Joined.{AreJoined};
ghost use Rattle.pst_field_domains.specs.Kept.{IsRowOf};

use crate::points::points_of;
use pst_base::NoMemory;
use pst_evaluate::ItemValues;
use pst_expr::Span;
use pst_joined_spans::joined_spans;
use pst_sites::EnumSite;
use std::alloc::Global;
use std::marker::Model;

/// Joined spans.
#[derive(Drop)]
pub struct SpanRow {
    spans: Vec<Span>,
}

impl Model for SpanRow {
    ghost use Rattle.std.specs.Prelude.{List};
    ghost use Rattle.pst_expr.specs.declared.ranges.Span.{Span};
    ghost use Rattle.pst_joined_spans.specs.Joined.{AreJoined};

    ghost Value = { List Span };

    ghost view = { λ r. r.spans.items };

    ghost invariant = { λ r. AreJoined r.spans.items };
}

impl SpanRow {
    /// The spans.
    pub fn as_slice(&self) -> &[Span]
        ensures same { result.now ≡ self.now }
        ensures joined { AreJoined result.now }
    {
        self.spans.as_slice()
    }

    /// The values of an enum.
    pub fn of_enum(alloc: Global, values: &ItemValues, site: &EnumSite) -> Result<SpanRow, NoMemory>
        ensures { IfOk result (IsRowOf values.now site.now) }
    {
        let points = points_of(alloc, values, site.node)?;
        let spans = joined_spans(alloc, points.as_slice())?;
        Ok(SpanRow { spans })
    }
}
