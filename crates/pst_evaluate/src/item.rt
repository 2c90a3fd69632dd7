//! Enum items, and their values by those of others.
ghost use Rattle.std.specs.Prelude.{◌≡◌, IfOk, pos};
ghost use Rattle.std.specs.Option.{option_and_then};
ghost use Rattle.pst_num.specs.Arithmetic.{sum_of};
ghost use Rattle.pst_evaluate.specs.Evaluated.{value_in};
ghost use Rattle.pst_evaluate.specs.Known.{known_to, item_value};
ghost use Rattle.pst_evaluate.specs.Listed.{view_listed};

use crate::evaluated::{Evaluated, evaluated_binary};
use crate::expression::value_of;
use crate::knowledge::Knowledge;
use pst_ast::{Environment, ExprNode, Inner, Name, Owner};
use pst_base::{NoMemory, Place};
use pst_expr::BinaryOp;

/// An enum item of the sources.
#[derive(Clone, Copy)]
pub struct ListedItem<'a> {
    /// The place of the name of the component in whose text it is; none at file level.
    pub component: Option<Place>,
    /// Its name.
    pub name: Name,
    /// The name of the item before it in its enum.
    pub before: Option<Name>,
    /// Its expression, where it has one.
    pub expr: Option<&'a ExprNode>,
}

// One more than a value.
fn one_more(value: Evaluated) -> Evaluated
    ensures { value_in result ≡ option_and_then (λ v. sum_of v (pos 1)) (value_in value) }
{
    evaluated_binary(BinaryOp::Add, value, Evaluated::Value(1))
}

/// The value of an item by those of others.
pub fn value_of_item(known: &Knowledge, item: &ListedItem) -> Result<Evaluated, NoMemory>
    ensures { IfOk result (λ r. value_in r ≡ item_value known.now.index.now known.now.names.now (known_to known.now) (view_listed item.now)) }
{
    if let Some(expr) = item.expr {
        let at = Environment {
            component: item.component,
            owner: Owner::Nobody,
            inner: Inner::new(known.alloc),
            traversal: None,
        };
        return value_of(known, &at, expr);
    }
    match item.before {
        None => Ok(Evaluated::Value(0)),
        Some(before) => Ok(one_more(known.value_at(before.place))),
    }
}
