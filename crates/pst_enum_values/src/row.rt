//! The values of an enum.
ghost use Rattle.std.specs.Prelude.{◌≡◌, ℕ, ◌≤◌, ◌<◌, ℤ, ◌≤ℤ◌, ◌<ℤ◌, IfOk, length, nat_eq, slice_index_or};
ghost use Rattle.std.specs.List.{list_any};
ghost use Rattle.std.specs.List.Sorted.{IsPermutation};
ghost use Rattle.pst_enum_values.specs.Gathered.{IsAscending, is_inside};
ghost use Rattle.pst_enum_values.specs.Kept.{IsRowOf};

use crate::gather::add_values;
use pst_base::NoMemory;
use pst_evaluate::ItemValues;
use pst_expr::Span;
use pst_sites::EnumSite;
use std::alloc::Global;
use std::marker::Model;

/// The values of the items of an enum, in ascending order, and whether each item has one.
#[derive(Drop)]
pub struct EnumValues {
    known: bool,
    values: Vec<i64>,
}

impl Model for EnumValues {
    ghost use Rattle.pst_enum_values.specs.Gathered.{EnumRow};
    ghost use Rattle.pst_enum_values.specs.KeptRow.{IsEnumValues};

    ghost Value = { EnumRow };

    ghost view = { λ v. record { known = v.known; values = v.values.items } };

    ghost invariant = { IsEnumValues };
}

// Sorts values.
fn sort(values: &mut Vec<i64>)
    ensures same { IsPermutation values.old.items values.new.items }
    ensures ascending { IsAscending values.new.items }
{
    values.sort_unstable();
}

// How many of values that ascend stand below a span.
fn count_below(values: &[i64], span: Span) -> usize
    requires { IsAscending values.now }
    ensures within { result ≤ length values.now }
    ensures below { (k : ℕ) (d : ℤ) → k < result → slice_index_or values.now k d <ℤ span.low }
    ensures above { (k : ℕ) (d : ℤ) → result ≤ k → k < length values.now → span.low ≤ℤ slice_index_or values.now k d }
{
    values.partition_point(|v| *v < span.low)
}

// Whether a slice that ascends has a value in a span.
fn has_inside(values: &[i64], span: Span) -> bool
    requires { IsAscending values.now }
    ensures { result ≡ list_any (is_inside span) values.now }
{
    let at = count_below(values, span);
    if at < values.len() {
        values[at] <= span.high
    } else {
        false
    }
}

impl EnumValues {
    /// The values of an enum.
    pub fn new(alloc: Global, values: &ItemValues, site: &EnumSite) -> Result<EnumValues, NoMemory>
        ensures { IfOk result (IsRowOf values.now site.now) }
    {
        let mut found = Vec::new(alloc);
        let known = add_values(values, &mut found, site.node)?;
        sort(&mut found);
        Ok(EnumValues {
            known,
            values: found,
        })
    }

    /// Whether each item has a value.
    pub fn are_known(&self) -> bool
        ensures { result ≡ self.now.known }
    {
        self.known
    }

    /// Whether no item has a value.
    pub fn is_empty(&self) -> bool
        ensures { result ≡ nat_eq (length self.now.values) 0 }
    {
        self.values.is_empty()
    }

    /// Whether an item has a value in a span. A bisection finds it.
    pub fn has_inside(&self, span: Span) -> bool
        ensures { result ≡ list_any (is_inside span) self.now.values }
    {
        has_inside(self.values.as_slice(), span)
    }
}
