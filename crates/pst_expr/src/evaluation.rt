// The value of an expression.
ghost use Rattle.std.specs.Prelude.{◌≡◌, ℕ, ◌<◌, ◌≤◌};
ghost use Rattle.pst_expr.specs.Tree.{view};
ghost use Rattle.pst_expr.specs.Value.{value};
ghost use Rattle.pst_expr.specs.Left.{left_depth, value_above};

use crate::environment::Env;
use crate::operators::{binary, decided_by_left, unary};
use crate::tree::Expr;

/// The value of an expression under the values of the variables, `None` where it has none.
///
/// It takes no memory. A chain of n operators along the left operands takes stack for log n of them.
#[cycle(eval)]
pub fn eval(expr: &Expr, env: &Env) -> Option<i64>
    ensures { result ≡ value (view expr.now) env.now }
{
    match expr {
        Expr::Constant(number) => Some(*number),
        Expr::Variable(variable) => env.get(*variable),
        Expr::Unary(op, operand) => unary(*op, eval(operand, env)?),
        Expr::Binary(_, _, _) => {
            let (depth, part) = expr.left_end();
            eval_above(expr, depth, eval(part, env), env)
        }
        Expr::Element(first, count, index) => env.element(*first, *count, eval(index, env)?),
    }
}

// The value of `expr`, where `below` is the value of the part that stands `depth` operators down.
#[cycle(eval)]
fn eval_above(expr: &Expr, depth: usize, below: Option<i64>, env: &Env) -> Option<i64>
    requires some { 0 < depth }
    requires within { depth ≤ left_depth (view expr.now) }
    ensures { result ≡ value_above depth (view expr.now) below env.now }
{
    if depth > 1 {
        let upper = depth / 2;
        let middle = expr.left_part(upper);
        let below = eval_above(middle, depth - upper, below, env);
        return eval_above(expr, upper, below, env);
    }
    let Expr::Binary(op, _, right) = expr else {
        unreachable!()
    };
    let left = below?;
    match decided_by_left(*op, left) {
        Some(decided) => Some(decided),
        None => binary(*op, left, eval(right, env)?),
    }
}
