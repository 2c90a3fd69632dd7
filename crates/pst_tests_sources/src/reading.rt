//! Files as tokens and as trees.
ghost use Rattle.std.specs.Prelude.{◌≤◌, ◌<◌, ◌^◌, length, IfOk, IfSome};
ghost use Rattle.pst_token.specs.Laws.{EndsOnce};
ghost use Rattle.pst_reading.specs.Ended.{IsEnded};

use pst_ast::Unit;
use pst_base::Names;
use pst_lexer::{LexFault, Lexer};
use pst_parser::parse_unit;
use pst_token::Token;
use pst_token::laws::tokens_are_in_order;
use std::alloc::Global;

// The tokens of a short text.
fn lexed(alloc: Global, file: u32, text: &[u8], names: &mut Names) -> Result<Vec<Token>, LexFault>
    requires text { length text.now ≤ 2 ^ 20 }
    requires names { length names.old ≤ 2 ^ 30 }
    ensures { IfOk result (λ tokens. EndsOnce tokens.items) }
{
    tokens_are_in_order();
    let mut lexer = Lexer::new(alloc, file, 1 << 20);
    lexer.feed(text, names)?;
    lexer.finish(names)
}

/// The tokens of a file, or nothing where it has none.
pub fn tokens_of(alloc: Global, file: u32, text: &[u8], names: &mut Names) -> Option<Vec<Token>>
    ensures { IfSome result (λ tokens. EndsOnce tokens.items) }
{
    if text.len() > 1 << 20 || names.len() > 1 << 30 {
        return None;
    }
    match lexed(alloc, file, text, names) {
        Ok(tokens) => Some(tokens),
        Err(_) => None,
    }
}

/// The tokens of the only file, or nothing where it has none.
#[tactic(auto, using(crate::proofs::Endings::ended, crate::proofs::Endings::inside))]
pub fn text_tokens(alloc: Global, text: &[u8]) -> Option<Vec<Token>>
    ensures once { IfSome result (λ tokens. EndsOnce tokens.items) }
    ensures ended { IfSome result (λ tokens. IsEnded tokens.items) }
    ensures some { IfSome result (λ tokens. 0 < length tokens.items) }
{
    let mut names = Names::new(alloc);
    match tokens_of(alloc, 0, text, &mut names) {
        Some(tokens) => Some(tokens),
        None => None,
    }
}

// The tree of a file, or nothing where it is no unit.
fn unit_of(alloc: Global, file: u32, text: &[u8], names: &mut Names) -> Option<Unit> {
    let tokens = tokens_of(alloc, file, text, names)?;
    match parse_unit(alloc, tokens.as_slice()) {
        Ok(unit) => Some(unit),
        Err(_) => None,
    }
}

/// The trees of some files, and the names in them.
#[derive(Drop)]
pub struct Sources {
    /// The names.
    pub names: Names,
    /// The trees.
    pub units: Vec<Unit>,
}

/// The trees of some files, or nothing where one is no unit.
pub fn read_units(alloc: Global, files: &[Vec<u8>]) -> Option<Sources> {
    let mut names = Names::new(alloc);
    let mut units = Vec::new(alloc);
    let mut file: u32 = 0;
    for text in files {
        let unit = unit_of(alloc, file, text.as_slice(), &mut names)?;
        if units.push(unit).is_err() {
            return None;
        }
        file = file.wrapping_add(1);
    }
    Some(Sources { names, units })
}
