//! Which operators tokens are.
ghost use Rattle.std.specs.Prelude.{◌≡◌};
ghost use Rattle.std.specs.Prelude.{drop, is_some};
ghost use Rattle.pst_ast.specs.ExpressionProper;
ghost use Rattle.pst_reading.specs.Parser.{next};
ghost use Rattle.pst_parse_operator.specs.Operators.{operator_of_kind, prefix_of_kind, operator_of, is_in, prefix_of};
ghost use Rattle.pst_parse_operator.specs.Operators;

use pst_ast::{Operator, PrefixOperator};
use pst_reading::{is, token_at};
use pst_token::{Kind, Token};

/// The operator between parts that a kind of token is.
pub fn operator_of_kind(kind: Kind) -> Option<Operator>
    ensures { result ≡ operator_of_kind kind }
{
    match kind {
        Kind::Star => Some(Operator::Multiply),
        Kind::Slash => Some(Operator::Divide),
        Kind::Percent => Some(Operator::Remainder),
        Kind::Plus => Some(Operator::Add),
        Kind::Minus => Some(Operator::Subtract),
        Kind::LessLess => Some(Operator::ShiftLeft),
        Kind::GreaterGreater => Some(Operator::ShiftRight),
        Kind::Less => Some(Operator::Less),
        Kind::LessEqual => Some(Operator::LessEqual),
        Kind::Greater => Some(Operator::Greater),
        Kind::GreaterEqual => Some(Operator::GreaterEqual),
        Kind::EqualEqual => Some(Operator::Equal),
        Kind::NotEqual => Some(Operator::NotEqual),
        Kind::And => Some(Operator::BitAnd),
        Kind::Caret => Some(Operator::BitXor),
        Kind::Or => Some(Operator::BitOr),
        Kind::AndAnd => Some(Operator::And),
        Kind::OrOr => Some(Operator::Or),
        _ => None,
    }
}

/// The operator before a part that a kind of token is.
pub fn prefix_of_kind(kind: Kind) -> Option<PrefixOperator>
    ensures { result ≡ prefix_of_kind kind }
{
    match kind {
        Kind::Minus => Some(PrefixOperator::Negate),
        Kind::Not => Some(PrefixOperator::Not),
        Kind::Tilde => Some(PrefixOperator::Complement),
        _ => None,
    }
}

// How tightly an operator binds, from 0 for `||` to 9 for `*`.
fn level_of(operator: Operator) -> u32
    ensures { result ≡ ExpressionProper.level_of operator }
{
    match operator {
        Operator::Or => 0,
        Operator::And => 1,
        Operator::BitOr => 2,
        Operator::BitXor => 3,
        Operator::BitAnd => 4,
        Operator::Equal | Operator::NotEqual => 5,
        Operator::Less | Operator::LessEqual | Operator::Greater | Operator::GreaterEqual => 6,
        Operator::ShiftLeft | Operator::ShiftRight => 7,
        Operator::Add | Operator::Subtract => 8,
        Operator::Multiply | Operator::Divide | Operator::Remainder => 9,
    }
}

// Whether there is nothing in a token but its kind.
#[tactic(auto, unfolding(crate::specs::Operators::is_bare))]
fn is_bare(token: Token) -> bool
    ensures { result ≡ Operators.is_bare token }
{
    token.name.0 == 0 && token.number == 0
}

/// The operator of a level between parts at a place.
#[tactic(auto, unfolding(crate::specs::Operators::operator_of))]
pub fn operator_at(tokens: &[Token], at: usize, level: u32) -> Option<Operator>
    ensures { result ≡ operator_of level (next (drop at tokens.now)) }
{
    let Some(token) = token_at(tokens, at) else {
        return None;
    };
    if !is_bare(token) {
        return None;
    }
    let Some(operator) = operator_of_kind(token.kind) else {
        return None;
    };
    if level_of(operator) == level {
        Some(operator)
    } else {
        None
    }
}

/// Whether an operator of a level stands between parts at a place.
pub fn has_operator(tokens: &[Token], at: usize, level: u32) -> bool
    ensures { result ≡ is_some (operator_of level (next (drop at tokens.now))) }
{
    operator_at(tokens, at, level).is_some()
}

/// Whether `in` stands at a place, which is an operator of level 6.
#[tactic(auto, unfolding(crate::specs::Operators::is_in))]
pub fn has_in(tokens: &[Token], at: usize, level: u32) -> bool
    ensures { result ≡ is_in level (next (drop at tokens.now)) }
{
    level == 6 && is(tokens, at, Kind::In)
}

/// The operator before a part at a place.
#[tactic(auto, unfolding(crate::specs::Operators::prefix_of))]
pub fn prefix_at(tokens: &[Token], at: usize) -> Option<PrefixOperator>
    ensures { result ≡ prefix_of (next (drop at tokens.now)) }
{
    let Some(token) = token_at(tokens, at) else {
        return None;
    };
    if !is_bare(token) {
        return None;
    }
    prefix_of_kind(token.kind)
}
