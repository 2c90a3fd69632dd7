//! Bodies as texts.
use crate::expressions::{write_constraint, write_constraints, write_span};
use crate::page::Page;
use pst_expr::Span;
use pst_model::{BodyStep, Constraint, Source};

// A call with its arguments.
fn write_call(page: &mut Page, function: u32, arguments: &[Constraint]) {
    page.number("call ", function);
    write_constraints(page, arguments);
}

// The value of a local.
fn write_source(page: &mut Page, source: &Source) {
    page.put(" = ");
    match source {
        Source::Value(value) => write_constraint(page, value),
        Source::Answer {
            function,
            arguments,
        } => write_call(page, *function, arguments.as_slice()),
    }
}

// A declaration.
fn write_declaration(page: &mut Page, local: u32, range: Span, value: &Option<Source>) {
    page.number("local ", local);
    write_span(page, " ", range);
    if let Some(value) = value {
        write_source(page, value);
    }
}

// A statement.
#[cycle(statements)]
fn write_statement(step: &BodyStep, page: &mut Page) {
    match step {
        BodyStep::Declare {
            local,
            range,
            value,
        } => write_declaration(page, *local, *range, value),
        BodyStep::Assign { local, value } => {
            page.number("set ", *local);
            write_source(page, value);
        }
        BodyStep::Call {
            function,
            arguments,
        } => write_call(page, *function, arguments.as_slice()),
        BodyStep::If { condition, yes, no } => {
            page.put("if ");
            write_constraint(page, condition);
            write_statements(yes.as_slice(), page);
            write_statements(no.as_slice(), page);
        }
        BodyStep::Repeat { count, body } => {
            page.put("repeat ");
            write_constraint(page, count);
            write_statements(body.as_slice(), page);
        }
    }
}

/// Statements in braces, with `;` behind each.
#[cycle(statements)]
pub fn write_statements(steps: &[BodyStep], page: &mut Page) {
    page.put("{");
    for step in steps {
        write_statement(step, page);
        page.put(";");
    }
    page.put("}");
}
