//! Values of expressions.
ghost use Rattle.std.specs.Prelude.{◌<◌, length};

use crate::arithmetic::{number, told};
use crate::postfix::read_postfix;
use pst_expr::{Env, eval};
use std::alloc::{AllocError, Global};

// The values of variables, each a number or `none`.
fn environment(alloc: Global, text: &str) -> Result<Env, AllocError> {
    let mut values = Vec::new(alloc);
    for word in text.split_whitespace() {
        values.push(word.parse::<i64>().ok())?;
    }
    Ok(Env::new(values))
}

// The value of an expression, of a copy of it, or of its left part at a depth.
fn value(alloc: Global, call: &str, env: &Env, text: &str) -> Result<String, AllocError> {
    let (depth, rest) = match call {
        "left" => text.split_once(' ').unwrap_or(("0", text)),
        _ => ("0", text),
    };
    let Some(read) = read_postfix(alloc, rest)? else {
        return String::from_str(alloc, "unread");
    };
    let found = match call {
        "copy" => eval(&read.expr.clone()?, env),
        "left" => {
            let depth = depth.parse::<usize>().unwrap_or(0);
            let (end, _) = read.expr.left_end();
            if depth > end {
                return format!(in alloc; "only {end}");
            }
            eval(read.expr.left_part(depth), env)
        }
        _ => eval(&read.expr, env),
    };
    told(alloc, found)
}

// The values of variables after one of them is given another value.
fn changed(alloc: Global, env: Env, text: &str) -> Result<String, AllocError> {
    let mut env = env;
    let (variable, word) = text.split_once(' ').unwrap_or(("", ""));
    let variable = variable.parse::<u32>().unwrap_or(0);
    if variable as usize >= env.values().len() {
        return String::from_str(alloc, "unread");
    }
    env.set(variable, Some(number(word)));
    let mut answer = told(alloc, env.get(variable))?;
    answer.push_str(" in")?;
    for value in env.into_values() {
        answer.push(' ')?;
        answer.push_str(told(alloc, value)?.as_str())?;
    }
    Ok(answer)
}

/// Answers these calls on a text of the values of variables, ` | ` and more:
///
/// - `value`, `copy`: the value of the expression behind, or of a copy of it, or `none`.
/// - `left`: behind stand a depth and an expression. The value of its left part at that depth, or the
///   greatest depth.
/// - `set`: behind stand the number of a variable and its new value. This value, and all values.
pub fn answer(alloc: Global, call: &str, text: &str) -> Result<String, AllocError> {
    let (values, rest) = text.split_once("| ").unwrap_or(("", text));
    let env = environment(alloc, values)?;
    match call {
        "set" => changed(alloc, env, rest),
        _ => value(alloc, call, &env, rest),
    }
}
