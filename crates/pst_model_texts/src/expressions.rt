//! Expressions, and what their variables stand for, as texts.
use crate::page::Page;
use pst_expr::{BinaryOp, Expr, Span, UnaryOp};
use pst_model::{Constraint, Slot};

// An operator before its operand.
fn unary_text(op: UnaryOp) -> &'static str {
    match op {
        UnaryOp::Neg => "-",
        UnaryOp::Not => "!",
        UnaryOp::BitNot => "~",
    }
}

// An operator between its operands.
fn binary_text(op: BinaryOp) -> &'static str {
    match op {
        BinaryOp::Mul => "*",
        BinaryOp::Div => "/",
        BinaryOp::Rem => "%",
        BinaryOp::Add => "+",
        BinaryOp::Sub => "-",
        BinaryOp::Shl => "<<",
        BinaryOp::Shr => ">>",
        BinaryOp::Less => "<",
        BinaryOp::LessOrEqual => "<=",
        BinaryOp::Greater => ">",
        BinaryOp::GreaterOrEqual => ">=",
        BinaryOp::Equal => "==",
        BinaryOp::NotEqual => "!=",
        BinaryOp::BitAnd => "&",
        BinaryOp::BitXor => "^",
        BinaryOp::BitOr => "|",
        BinaryOp::And => "&&",
        BinaryOp::Or => "||",
        BinaryOp::Implies => "->",
    }
}

// An expression, each pair of operands in brackets. Variable k is `vk`, and an element of an array of
// n variables from k on is `vk#n[index]`.
fn write_expr(expr: &Expr, page: &mut Page) {
    match expr {
        Expr::Constant(value) => page.value("", *value),
        Expr::Variable(number) => page.number("v", *number),
        Expr::Unary(op, operand) => {
            page.put(unary_text(*op));
            write_expr(operand, page);
        }
        Expr::Binary(op, left, right) => {
            page.put("(");
            write_expr(left, page);
            page.put(binary_text(*op));
            write_expr(right, page);
            page.put(")");
        }
        Expr::Element(first, count, index) => {
            page.number("v", *first);
            page.number("#", *count);
            page.put("[");
            write_expr(index, page);
            page.put("]");
        }
    }
}

// A letter, a number, `.` and another number.
fn write_pair(page: &mut Page, letter: &str, number: u32, field: u32) {
    page.number(letter, number);
    page.number(".", field);
}

// What a variable stands for: `f` a field, `r` a reference, `c` a claim, `i` a level of indices, `l` a
// local, each with its number; `h` is what stands behind a handle, and `out` what is of the action
// round an inline constraint.
fn write_slot(slot: &Slot, page: &mut Page) {
    match slot {
        Slot::Own { field } => page.number("f", *field),
        Slot::Object { reference, field } => write_pair(page, "r", *reference, *field),
        Slot::First { reference } => {
            page.number("r", *reference);
            page.put(".initial");
        }
        Slot::ClaimId { claim } => {
            page.number("c", *claim);
            page.put(".id");
        }
        Slot::ClaimField { claim, field } => write_pair(page, "c", *claim, *field),
        Slot::Prev { field } => page.number("prev.", *field),
        Slot::IsFirst => page.put("initial"),
        Slot::Id => page.put("id"),
        Slot::Index { level } => page.number("i", *level),
        Slot::Local { local } => page.number("l", *local),
        Slot::Through { handle, slot } => {
            page.number("h", *handle);
            page.put(".");
            write_slot(slot, page);
        }
        Slot::Outer { slot } => {
            page.put("out.");
            write_slot(slot, page);
        }
    }
}

// What the variables stand for, parted by blanks.
fn write_slots(page: &mut Page, slots: &[Slot]) {
    let mut between = "";
    for slot in slots {
        page.put(between);
        write_slot(slot, page);
        between = " ";
    }
}

/// An expression, and behind it in brackets what its variables stand for.
pub fn write_constraint(page: &mut Page, constraint: &Constraint) {
    write_expr(&constraint.expr, page);
    page.put("[");
    write_slots(page, constraint.slots.as_slice());
    page.put("]");
}

/// Expressions with blanks before them.
pub fn write_constraints(page: &mut Page, all: &[Constraint]) {
    for constraint in all {
        page.put(" ");
        write_constraint(page, constraint);
    }
}

/// A span behind a text.
pub fn write_span(page: &mut Page, text: &str, span: Span) {
    page.value(text, span.low);
    page.value("..", span.high);
}

/// Spans in brackets, with `;` behind each.
pub fn write_spans(page: &mut Page, spans: &[Span]) {
    page.put("[");
    for span in spans {
        write_span(page, "", *span);
        page.put(";");
    }
    page.put("]");
}
