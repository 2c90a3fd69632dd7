//! The steps that every rule is made of.
ghost use Rattle.std.specs.Prelude.{◌≡◌, ◌≤◌, ◌++◌, ◌∷◌, [], length, drop, IfOk, IfErr, OnOk, OnErr};
ghost use Rattle.std.specs.Bool.{OnFalse};
ghost use Rattle.pst_ast.specs.Limits.{counted};
ghost use Rattle.pst_ast.specs.Limits;
ghost use Rattle.pst_ast.specs.declared.fault.SyntaxFault.TheVariants.{NoMemory};
ghost use Rattle.pst_reading.specs.Kinds.{number_of, is_mark, is_name, is_number, next_is};
ghost use Rattle.pst_reading.specs.Parser.{next, mark_by, name_by};
ghost use Rattle.pst_reading.specs.Gives.{Expects};
ghost use Rattle.pst_reading.specs.Peeking;

use pst_ast::{Name, SyntaxFault};
use pst_base::Place;
use pst_token::{Kind, Token};
use std::alloc::Global;

/// How many derivations that count may be open at a token.
const MOST_NESTING: u32 = 64;

/// How many operators an outermost expression may have.
const MOST_OPERATORS: u32 = 256;

/// The number of a kind, in order of declaration.
pub fn kind_number(kind: Kind) -> u8
    ensures { result ≡ number_of kind }
{
    kind as u8
}

/// Whether a token breaks a limit, by the derivations that are open at it and the operators of its
/// outermost expression up to it.
pub fn is_over(nesting: u32, operators: u32) -> bool
    ensures over { result ≡ Limits.is_over (counted nesting operators) }
    ensures within { OnFalse result ((nesting ≤ 64) × (operators ≤ 256)) }
{
    nesting > MOST_NESTING || operators > MOST_OPERATORS
}

/// The token at a place, where there is one.
#[tactic(auto, using(crate::proofs::Places::next_there, crate::proofs::Places::next_past))]
pub fn token_at(tokens: &[Token], at: usize) -> Option<Token>
    ensures { result ≡ next (drop at tokens.now) }
{
    if at < tokens.len() {
        Some(tokens[at])
    } else {
        None
    }
}

/// Whether the token at a place is a mark or a reserved word, with nothing else in it.
#[tactic(auto, unfolding(crate::specs::Kinds::is_mark))]
pub fn is(tokens: &[Token], at: usize, wanted: Kind) -> bool
    ensures { result ≡ next_is (is_mark wanted) (next (drop at tokens.now)) }
{
    match token_at(tokens, at) {
        Some(token) => {
            kind_number(token.kind) == kind_number(wanted)
                && (token.name.0 == 0 && token.number == 0)
        }
        None => false,
    }
}

/// Whether the token at a place is a name.
#[tactic(auto, unfolding(crate::specs::Kinds::is_name))]
pub fn is_name(tokens: &[Token], at: usize) -> bool
    ensures { result ≡ next_is is_name (next (drop at tokens.now)) }
{
    match token_at(tokens, at) {
        Some(token) => kind_number(token.kind) == kind_number(Kind::Name) && token.number == 0,
        None => false,
    }
}

/// Whether the token at a place is a number.
#[tactic(auto, unfolding(crate::specs::Kinds::is_number))]
pub fn is_number(tokens: &[Token], at: usize) -> bool
    ensures { result ≡ next_is is_number (next (drop at tokens.now)) }
{
    match token_at(tokens, at) {
        Some(token) => kind_number(token.kind) == kind_number(Kind::Number) && token.name.0 == 0,
        None => false,
    }
}

/// Whether a name stands at a place, and then this mark or reserved word.
pub fn name_then(tokens: &[Token], at: usize, wanted: Kind) -> bool
    requires inside { at ≤ length tokens.now }
    ensures { result ≡ Peeking.name_then wanted (drop at tokens.now) }
{
    is_name(tokens, at) && is(tokens, at + 1, wanted)
}

/// The place of a mark or reserved word, which has to be there, within the limits.
#[tactic(auto, using(crate::proofs::Places::mark_taken))]
pub fn expect(
    tokens: &[Token],
    at: usize,
    wanted: Kind,
    nesting: u32,
    operators: u32,
) -> Result<Place, SyntaxFault>
    ensures reads { Expects (mark_by wanted (counted nesting operators)) tokens.now at result }
    ensures within { IfOk result (λ place. (nesting ≤ 64) × (operators ≤ 256)) }
{
    let Some(token) = token_at(tokens, at) else {
        return Err(SyntaxFault::At { at });
    };
    if !is(tokens, at, wanted) {
        return Err(SyntaxFault::At { at });
    }
    if is_over(nesting, operators) {
        return Err(SyntaxFault::Deep { at });
    }
    Ok(token.place)
}

/// The name at a place, which has to be there, within the limits.
#[tactic(auto, using(crate::proofs::Places::name_taken))]
pub fn expect_name(
    tokens: &[Token],
    at: usize,
    nesting: u32,
    operators: u32,
) -> Result<Name, SyntaxFault>
    ensures reads { Expects (name_by (counted nesting operators)) tokens.now at result }
    ensures within { IfOk result (λ name. (nesting ≤ 64) × (operators ≤ 256)) }
{
    let Some(token) = token_at(tokens, at) else {
        return Err(SyntaxFault::At { at });
    };
    if !is_name(tokens, at) {
        return Err(SyntaxFault::At { at });
    }
    if is_over(nesting, operators) {
        return Err(SyntaxFault::Deep { at });
    }
    Ok(Name {
        id: token.name,
        place: token.place,
    })
}

/// A value on the heap.
pub fn boxed<T: Drop>(alloc: Global, value: T) -> Result<Box<T>, SyntaxFault>
    ensures ok { IfOk result (λ b. b.value ≡ value) }
    ensures err { IfErr result (λ e. e ≡ NoMemory) }
{
    match Box::new(alloc, value) {
        Ok(boxed) => Ok(boxed),
        Err(_) => Err(SyntaxFault::NoMemory),
    }
}

/// One more item at the end of a list.
pub fn push<T: Drop>(items: &mut Vec<T>, item: T) -> Result<(), SyntaxFault>
    ensures ok { OnOk result (items.new.items ≡ items.old.items ++ item ∷ []) }
    ensures err { IfErr result (λ e. e ≡ NoMemory) }
{
    match items.push(item) {
        Ok(()) => Ok(()),
        Err(_) => Err(SyntaxFault::NoMemory),
    }
}
