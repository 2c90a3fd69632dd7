// The way down the left operands. A chain of operators of one level is as long as its text, so it is walked by loops.
ghost use Rattle.std.specs.Prelude.{◌≡◌, ℕ, ◌<◌, ◌≤◌, min};
ghost use Rattle.pst_expr.specs.Tree.{view};
ghost use Rattle.pst_expr.specs.Left.{left_depth, left_part};

use crate::tree::Expr;

impl Expr {
    /// The part that stands `depth` binary operators down the left operands.
    ///
    /// Where there are fewer, it is the last part on the way.
    pub fn left_part(&self, depth: usize) -> &Expr
        ensures { view result.now ≡ left_part depth (view self.now) }
    {
        let mut part = self;
        for _ in 0..depth {
            match part {
                Expr::Binary(_, left, _) => part = left,
                _ => return part,
            }
        }
        part
    }

    /// How many binary operators stand on the way down the left operands, and the part at its end.
    pub fn left_end(&self) -> (usize, &Expr)
        ensures depth { result.0 ≡ min (left_depth (view self.now)) usize.MAX }
        ensures part { view result.1.now ≡ left_part result.0 (view self.now) }
    {
        let mut part = self;
        for depth in 0..usize::MAX {
            match part {
                Expr::Binary(_, left, _) => part = left,
                _ => return (depth, part),
            }
        }
        (usize::MAX, part)
    }
}
