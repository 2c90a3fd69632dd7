//! The variables that stand in an expression.
ghost use Rattle.std.specs.Prelude.{◌≡◌, ℕ, ◌+◌, ◌^◌, ◌<◌, OnOk};
ghost use Rattle.pst_expr.specs.Tree.{view};
ghost use Rattle.pst_domain.specs.Bounds.{HasVariablesBelow};
ghost use Rattle.pst_narrow.specs.Mentions.{IsElement, Mentions, AreNoted, OthersDontMatter};
ghost use Rattle.pst_narrow.specs.Local.{NarrowingIsLocal};

use pst_base::NoMemory;
use pst_expr::Expr;

/// Variables that don't stand in an expression don't matter to its value, and their bounds don't to its span.
pub fn others_dont_matter()
    ensures { OthersDontMatter }
{}

/// What a constraint narrows rests on the bounds of its own variables alone, and so does that it can't hold.
pub fn narrowing_is_local()
    ensures { NarrowingIsLocal }
{}

// The variables of the elements of an array.
fn add_elements(first: u32, count: u32, numbers: &mut Vec<u32>) -> Result<(), NoMemory>
    requires { (i : ℕ) → i < count → first + i < 2 ^ 32 }
    ensures { OnOk result (AreNoted (IsElement first count) numbers.old.items numbers.new.items) }
{
    for i in 0..count {
        numbers.push(first + i)?;
    }
    Ok(())
}

/// Adds the numbers of the variables that stand in an expression. Along the left operands it takes no stack.
#[cycle(mentions)]
pub fn add_mentioned(expr: &Expr, numbers: &mut Vec<u32>) -> Result<(), NoMemory>
    requires { HasVariablesBelow (2 ^ 32) (view expr.now) }
    ensures { OnOk result (AreNoted (Mentions (view expr.now)) numbers.old.items numbers.new.items) }
{
    let mut part = expr;
    for _depth in 0..usize::MAX {
        let Expr::Binary(_, left, right) = part else {
            break;
        };
        add_mentioned(right, numbers)?;
        part = left;
    }
    add_of_operands(part, numbers)
}

// The same, operand by operand.
#[cycle(mentions)]
fn add_of_operands(expr: &Expr, numbers: &mut Vec<u32>) -> Result<(), NoMemory>
    requires { HasVariablesBelow (2 ^ 32) (view expr.now) }
    ensures { OnOk result (AreNoted (Mentions (view expr.now)) numbers.old.items numbers.new.items) }
{
    match expr {
        Expr::Constant(_) => Ok(()),
        Expr::Variable(variable) => {
            numbers.push(*variable)?;
            Ok(())
        }
        Expr::Unary(_, operand) => add_mentioned(operand, numbers),
        Expr::Binary(_, left, right) => {
            add_mentioned(left, numbers)?;
            add_mentioned(right, numbers)
        }
        Expr::Element(first, count, index) => {
            add_elements(*first, *count, numbers)?;
            add_mentioned(index, numbers)
        }
    }
}
