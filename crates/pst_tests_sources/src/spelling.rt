//! What is answered on texts that may be units, and the tokens that these spell.
ghost use Rattle.std.specs.Prelude.{◌≤◌, length};
ghost use Rattle.pst_token.specs.Laws.{EndsOnce};

use crate::lexing::labelled;
use crate::parsing::ended;
use crate::reading::text_tokens;
use pst_ast::{SyntaxFault, Unit};
use pst_parser::parse_unit;
use pst_spell::spell;
use pst_token::Token;
use std::alloc::{AllocError, Global};

// What a unit spells, where that is asked, or how many parts it has.
fn told(alloc: Global, tokens: &[Token], unit: &Unit, call: &str) -> Result<String, AllocError> {
    let Ok(spelled) = spell(alloc, unit) else {
        return String::from_str(alloc, "no memory");
    };
    let number = unit.items.len();
    let count = spelled.len();
    match call {
        "spelling" => labelled(alloc, "spelling", spelled.as_slice()),
        _ if spelled.as_slice() != tokens => String::from_str(alloc, "other tokens"),
        "parts" => format!(in alloc; "{number} parts"),
        "spelled" => format!(in alloc; "{count} tokens"),
        _ => String::from_str(alloc, "unit"),
    }
}

// What is answered on a text.
fn outcome(alloc: Global, text: &[u8], call: &str) -> Result<String, AllocError> {
    let Some(tokens) = text_tokens(alloc, text) else {
        return String::from_str(alloc, "no tokens");
    };
    match parse_unit(alloc, tokens.as_slice()) {
        Ok(unit) => told(alloc, tokens.as_slice(), &unit, call),
        Err(fault) => ended(alloc, tokens.as_slice(), Err(fault)),
    }
}

// Whether each front of a text is a unit, or no unit, or no list of tokens.
fn fronts(alloc: Global, text: &[u8]) -> Result<String, AllocError> {
    for end in 0..text.len() {
        let answer = outcome(alloc, &text[..end], "unit")?;
        let word = answer.as_str();
        if word != "unit" && word != "no tokens" && !word.starts_with("wrong ") {
            return format!(in alloc; "{word} at {end}");
        }
    }
    String::from_str(alloc, "all answered")
}

/// Answers these calls on a text:
///
/// - `unit`, `parts`, `spelled`: of a unit that spells the tokens of the text `unit`, how many parts
///   it has, or how many tokens; of one that is no unit `wrong` or `deep`, with the place.
/// - `spelling`: the tokens that the unit spells, with their places. A label is the token.
/// - `fronts`: whether each front of the text is a unit, or wrong, or no list of tokens.
pub fn answer(alloc: Global, text: &[u8], call: &str) -> Result<String, AllocError> {
    match call {
        "fronts" => fronts(alloc, text),
        _ => outcome(alloc, text, call),
    }
}
