// The spans of sums and differences.
ghost use Rattle.std.specs.Prelude.{◌+ℤ◌, ◌-ℤ◌};
ghost use Rattle.pst_expr.specs.declared.tree.BinaryOp.TheVariants.{Add, Sub};
ghost use Rattle.pst_narrow.specs.Sums.{IsLowEnough, IsHighEnough, HoldsOperator};

use pst_expr::Span;

// The low end of a sum.
fn low_sum(left: i64, right: i64) -> i64
    ensures { IsLowEnough (left +ℤ right) result }
{
    left.saturating_add(right)
}

// The high end of a sum.
fn high_sum(left: i64, right: i64) -> i64
    ensures { IsHighEnough (left +ℤ right) result }
{
    left.saturating_add(right)
}

// The low end of a difference.
fn low_difference(left: i64, right: i64) -> i64
    ensures { IsLowEnough (left -ℤ right) result }
{
    left.saturating_sub(right)
}

// The high end of a difference.
fn high_difference(left: i64, right: i64) -> i64
    ensures { IsHighEnough (left -ℤ right) result }
{
    left.saturating_sub(right)
}

/// The span of a sum.
pub fn sum(left: Option<Span>, right: Option<Span>) -> Option<Span>
    ensures { HoldsOperator Add left right result }
{
    let left = left?;
    let right = right?;
    Some(Span {
        low: low_sum(left.low, right.low),
        high: high_sum(left.high, right.high),
    })
}

/// The span of a difference.
pub fn difference(left: Option<Span>, right: Option<Span>) -> Option<Span>
    ensures { HoldsOperator Sub left right result }
{
    let left = left?;
    let right = right?;
    Some(Span {
        low: low_difference(left.low, right.high),
        high: high_difference(left.high, right.low),
    })
}
