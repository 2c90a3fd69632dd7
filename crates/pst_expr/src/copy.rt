// Copies of expressions.
ghost use Rattle.std.specs.Prelude.{◌≡◌, ℕ, ◌<◌, ◌≤◌, IfOk};
ghost use Rattle.pst_expr.specs.Tree.{view};
ghost use Rattle.pst_expr.specs.Left.{left_depth, with_left_part};

use crate::tree::Expr;
use std::alloc::AllocError;

/// A copy has the same view. Like `eval` it takes little stack for a long chain of left operands.
impl Clone for Expr {
    ghost is_clone = { λ e copy. view copy ≡ view e };

    fn clone(&self) -> Result<Expr, AllocError> {
        copy_of(self)
    }
}

#[cycle(copy)]
fn copy_of(expr: &Expr) -> Result<Expr, AllocError>
    ensures { IfOk result (λ copy. view copy ≡ view expr.now) }
{
    match expr {
        Expr::Constant(number) => Ok(Expr::Constant(*number)),
        Expr::Variable(variable) => Ok(Expr::Variable(*variable)),
        Expr::Unary(op, operand) => {
            let copy = copy_of(operand)?;
            Ok(Expr::Unary(*op, Box::new(*Box::allocator(operand), copy)?))
        }
        Expr::Binary(_, _, _) => {
            let (depth, part) = expr.left_end();
            copy_above(expr, depth, copy_of(part)?)
        }
        Expr::Element(first, count, index) => {
            let copy = copy_of(index)?;
            Ok(Expr::Element(*first, *count, Box::new(*Box::allocator(index), copy)?))
        }
    }
}

// A copy of `expr` with `below` for the part that stands `depth` operators down.
#[cycle(copy)]
fn copy_above(expr: &Expr, depth: usize, below: Expr) -> Result<Expr, AllocError>
    requires some { 0 < depth }
    requires within { depth ≤ left_depth (view expr.now) }
    ensures { IfOk result (λ copy. view copy ≡ with_left_part depth (view expr.now) (view below)) }
{
    if depth > 1 {
        let upper = depth / 2;
        let middle = expr.left_part(upper);
        let copy = copy_above(middle, depth - upper, below)?;
        return copy_above(expr, upper, copy);
    }
    let Expr::Binary(op, left, right) = expr else {
        unreachable!()
    };
    let alloc = *Box::allocator(left);
    let right = copy_of(right)?;
    Ok(Expr::Binary(*op, Box::new(alloc, below)?, Box::new(alloc, right)?))
}
