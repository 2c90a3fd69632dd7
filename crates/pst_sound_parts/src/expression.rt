// Expressions whose variables are below a number of slots.
ghost use Rattle.std.specs.Prelude.{ℕ, ◌+◌, ◌≤◌, IsTrue, ◌↔◌};
ghost use Rattle.pst_expr.specs.Tree.{view};
ghost use Rattle.pst_model.specs.SoundConstraint.{IsBelow};
ghost use Rattle.pst_model.specs.Limits.{most_elements};

use pst_expr::Expr;

// The most elements of an array.
const MOST_ELEMENTS: u32 = 64;

// Whether an array's elements are at least one, not too many, and all below n.
fn is_array_below(n: usize, first: u32, count: u32) -> bool
    ensures { IsTrue result ↔ (1 ≤ count) × (count ≤ most_elements) × (first + count ≤ n) }
{
    count >= 1 && count <= MOST_ELEMENTS && first as usize + count as usize <= n
}

// Whether each variable of an expression is below n, and so are all elements of each array.
pub fn is_below(n: usize, expr: &Expr) -> bool
    ensures { IsTrue result ↔ IsBelow n (view expr.now) }
{
    let mut rest = expr;
    loop {
        match rest {
            Expr::Constant(_) => return true,
            Expr::Variable(variable) => return (*variable as usize) < n,
            Expr::Unary(_, operand) => rest = operand,
            Expr::Binary(_, left, right) => {
                if !is_below(n, right) {
                    return false;
                }
                rest = left;
            }
            Expr::Element(first, count, index) => {
                if !is_array_below(n, *first, *count) {
                    return false;
                }
                rest = index;
            }
        }
    }
}
