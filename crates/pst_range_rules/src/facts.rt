//! What ranges are judged by.
ghost use Rattle.std.specs.Prelude.{◌≡◌, IfOk};
ghost use Rattle.pst_ast.specs.ExpressionView.{view_expr};
ghost use Rattle.pst_range_rules.specs.Facts.{constant_at};

use pst_ast::{Environment, ExprNode};
use pst_base::{Names, NoMemory};
use pst_enum_values::EnumTable;
use pst_evaluate::constant_value;
use pst_index::Index;
use std::alloc::Global;

/// What names stand for, and the values of enum items.
#[derive(Clone, Copy)]
pub struct RangeFacts<'a> {
    /// Where memory comes from.
    pub alloc: Global,
    /// What the sources declare.
    pub index: &'a Index,
    /// The texts of names.
    pub names: &'a Names,
    /// The enums of the sources, with the values of their items.
    pub enums: &'a EnumTable<'a>,
}

impl<'a> RangeFacts<'a> {
    /// The value of a constant; none of what is no constant.
    pub fn constant(&self, at: &Environment, expr: &ExprNode) -> Result<Option<i64>, NoMemory>
        ensures { IfOk result (λ r. r ≡ constant_at self.now at.now (view_expr expr.now)) }
    {
        constant_value(
            self.alloc,
            self.index,
            self.names,
            self.enums.values(),
            at,
            expr,
        )
    }
}
