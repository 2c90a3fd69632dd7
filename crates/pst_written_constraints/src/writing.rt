//! Expressions over slots written over the variables of blanks.
ghost use Rattle.std.specs.Prelude.{◌≡◌, ℕ, ◌<◌, ◌≤◌, ◌+◌, IfOk, IfSome, Some, List, true, slice_get};
ghost use Rattle.pst_expr.specs.Tree.{Expression, Variable, Unary, Binary, Element, view};
ghost use Rattle.pst_expr.specs.Left.{left_depth, left_part};
ghost use Rattle.pst_written_constraints.specs.declared.term.Term.{Term as TheTerm};
ghost use Rattle.pst_written_constraints.specs.declared.term.Term.TheVariants as term;
ghost use Rattle.pst_written_constraints.specs.Terms.{IsMirror, Mirrors, AreInRow, without_value, term_or_unknown};

use crate::folding::{element_at, folded};
use crate::term::Term;
use pst_base::NoMemory;
use pst_expr::{BinaryOp, Expr, UnaryOp};
use std::alloc::Global;

// An expression without a value.
fn nothing(alloc: Global) -> Result<Expr, NoMemory>
    ensures { IfOk result (λ e. view e ≡ without_value) }
{
    let left = Box::new(alloc, Expr::Constant(1))?;
    let right = Box::new(alloc, Expr::Constant(0))?;
    Ok(Expr::Binary(BinaryOp::Div, left, right))
}

// The term of that number.
fn term_at(terms: &[Term], number: usize) -> Term
    ensures { term_or_unknown (slice_get terms.now number) ≡ result }
{
    match terms.get(number) {
        None => Term::Unknown,
        Some(term) => *term,
    }
}

// A variable.
fn write_variable(alloc: Global, terms: &[Term], variable: u32) -> Result<Option<Expr>, NoMemory>
    ensures { IfOk result (λ found. Mirrors terms.now (Variable variable) found) }
{
    match term_at(terms, variable as usize) {
        Term::Number(number) => Ok(Some(Expr::Constant(number))),
        Term::Variable(variable) => Ok(Some(Expr::Variable(variable))),
        Term::Nothing => Ok(Some(nothing(alloc)?)),
        Term::Unknown => Ok(None),
    }
}

// Whether a term is this variable.
fn is_variable(own: Term, variable: u64) -> bool
    ensures { result ≡ true → own ≡ term.Variable variable }
{
    match own {
        Term::Variable(other) => u64::from(other) == variable,
        _ => false,
    }
}

// Whether the variables of an array follow one another from this one on.
fn are_in_row(terms: &[Term], first: u32, count: u32, start: u32) -> bool
    ensures { result ≡ true → AreInRow terms.now first count start }
{
    for k in 0..count {
        let term = term_at(terms, first as usize + k as usize);
        if !is_variable(term, u64::from(start) + u64::from(k)) {
            return false;
        }
    }
    true
}

// The variable of the first element of an array whose variables follow one another.
fn row_from(terms: &[Term], first: u32, count: u32) -> Option<u32>
    ensures { IfSome result (λ start. AreInRow terms.now first count start) }
{
    match term_at(terms, first as usize) {
        Term::Variable(start) => {
            if are_in_row(terms, first, count, start) {
                return Some(start);
            }
            None
        }
        _ => None,
    }
}

// An operator and its operand.
fn write_unary(alloc: Global, op: UnaryOp, operand: Option<Expr>) -> Result<Option<Expr>, NoMemory>
    ensures { IfOk result (λ found. (terms : List TheTerm) (e : Expression) → Mirrors terms e operand → Mirrors terms (Unary op e) found) }
{
    match operand {
        None => Ok(None),
        Some(operand) => Ok(Some(Expr::Unary(op, Box::new(alloc, operand)?))),
    }
}

// An element of an array whose first variable is this: its variable, where the index is a constant.
fn place_element(alloc: Global, start: u32, count: u32, index: Expr) -> Result<Expr, NoMemory>
    ensures { IfOk result (λ written. (terms : List TheTerm) (first : ℕ) (e : Expression) → AreInRow terms first count start → IsMirror terms e (view index) → IsMirror terms (Element first count e) (view written)) }
{
    match element_at(start, count, &index) {
        Some(variable) => Ok(Expr::Variable(variable)),
        None => Ok(Expr::Element(start, count, Box::new(alloc, index)?)),
    }
}

// An element of an array whose first variable is this.
fn write_element(
    alloc: Global,
    start: u32,
    count: u32,
    index: Option<Expr>,
) -> Result<Option<Expr>, NoMemory>
    ensures { IfOk result (λ found. (terms : List TheTerm) (first : ℕ) (e : Expression) → AreInRow terms first count start → Mirrors terms e index → Mirrors terms (Element first count e) found) }
{
    match index {
        None => Ok(None),
        Some(index) => {
            let written = place_element(alloc, start, count, index)?;
            Ok(Some(written))
        }
    }
}

// An operator between two operands that aren't folded.
fn write_operands(alloc: Global, op: BinaryOp, left: Expr, right: Expr) -> Result<Expr, NoMemory>
    ensures { IfOk result (λ written. view written ≡ Binary op (view left) (view right)) }
{
    let left = Box::new(alloc, left)?;
    let right = Box::new(alloc, right)?;
    Ok(Expr::Binary(op, left, right))
}

// An operator between two operands, folded where these are constants.
fn join_operands(alloc: Global, op: BinaryOp, left: Expr, right: Expr) -> Result<Expr, NoMemory>
    ensures { IfOk result (λ written. (terms : List TheTerm) (a b : Expression) → IsMirror terms a (view left) → IsMirror terms b (view right) → IsMirror terms (Binary op a b) (view written)) }
{
    match folded(op, &left, &right) {
        Some(number) => Ok(Expr::Constant(number)),
        None => {
            let written = write_operands(alloc, op, left, right)?;
            Ok(written)
        }
    }
}

// An operator between two operands.
fn write_binary(
    alloc: Global,
    op: BinaryOp,
    left: Expr,
    right: Option<Expr>,
) -> Result<Option<Expr>, NoMemory>
    ensures { IfOk result (λ found. (terms : List TheTerm) (a b : Expression) → IsMirror terms a (view left) → Mirrors terms b right → Mirrors terms (Binary op a b) found) }
{
    match right {
        None => Ok(None),
        Some(right) => {
            let written = join_operands(alloc, op, left, right)?;
            Ok(Some(written))
        }
    }
}

/// An expression over slots, written over the variables of blanks; `None` where it can't be.
///
/// A chain of n operators along the left operands takes stack for log n of them.
#[cycle(write)]
pub fn write(alloc: Global, terms: &[Term], expr: &Expr) -> Result<Option<Expr>, NoMemory>
    ensures { IfOk result (λ found. Mirrors terms.now (view expr.now) found) }
{
    match expr {
        Expr::Constant(number) => Ok(Some(Expr::Constant(*number))),
        Expr::Variable(variable) => write_variable(alloc, terms, *variable),
        Expr::Unary(op, operand) => write_unary(alloc, *op, write(alloc, terms, operand)?),
        Expr::Binary(_, _, _) => {
            let (depth, part) = expr.left_end();
            match write(alloc, terms, part)? {
                None => Ok(None),
                Some(below) => write_above(alloc, terms, expr, depth, below),
            }
        }
        Expr::Element(first, count, index) => match row_from(terms, *first, *count) {
            None => Ok(None),
            Some(start) => write_element(alloc, start, *count, write(alloc, terms, index)?),
        },
    }
}

// The same of `expr`, where `below` is what the part that stands `depth` operators down is written as.
#[cycle(write)]
fn write_above(
    alloc: Global,
    terms: &[Term],
    expr: &Expr,
    depth: usize,
    below: Expr,
) -> Result<Option<Expr>, NoMemory>
    requires some { 0 < depth }
    requires within { depth ≤ left_depth (view expr.now) }
    requires below { IsMirror terms.now (left_part depth (view expr.now)) (view below) }
    ensures { IfOk result (λ found. Mirrors terms.now (view expr.now) found) }
{
    if depth > 1 {
        let upper = depth / 2;
        let middle = expr.left_part(upper);
        return match write_above(alloc, terms, middle, depth - upper, below)? {
            None => Ok(None),
            Some(below) => write_above(alloc, terms, expr, upper, below),
        };
    }
    let Expr::Binary(op, _, right) = expr else {
        unreachable!()
    };
    let right = write(alloc, terms, right)?;
    write_binary(alloc, *op, below, right)
}
