//! Cutting texts into tokens.
ghost use Rattle.std.specs.Prelude.{◌≡◌, ◌≢◌, ◌+◌, ◌-◌, ◌≤◌, ◌^◌, ◌++◌, ◌∷◌, [], length, IfOk, IfErr, OnOk};
ghost use Rattle.std.specs.List.{sum_by};
ghost use Rattle.pst_lexer.specs.Fault.{HasFault};
ghost use Rattle.pst_sources_read.specs.Lexed.{AreLexed, HasTextFault};
ghost use Rattle.pst_sources_read.specs.TextsLexed.{IsTextLexed, IsTextAdded};

use pst_base::{Items, Names};
use pst_lexer::{LexFault, Lexer};
use pst_token::Token;
use pst_token::laws::tokens_stay_as_names_grow;
use std::alloc::Global;

/// The most tokens of all sources together; the end of a source isn't counted.
pub const MOST_TOKENS: u32 = 262_144;

// The tokens of a text, where there is room for so many.
fn lex_text(
    alloc: Global,
    file: u32,
    room: u32,
    text: &[u8],
    names: &mut Names,
) -> Result<Vec<Token>, LexFault>
    requires room { room ≤ 2 ^ 20 }
    requires short { length text.now ≤ 2 ^ 31 }
    requires names { length names.old ≤ 2 ^ 30 }
    ensures tokens { IfOk result (λ tokens. IsTextLexed file room text.now names.old names.new tokens.items) }
    ensures fault { IfErr result (λ fault. fault ≢ LexFault.NoMemory → HasFault file room text.now fault) }
{
    let mut lexer = Lexer::new(alloc, file, room);
    match lexer.feed(text, names) {
        Ok(()) => lexer.finish(names),
        Err(fault) => Err(fault),
    }
}

// Adds the tokens of a text, and answers for how many more there is room.
fn add_tokens(all: &mut Vec<Items<Token>>, room: u32, tokens: Vec<Token>) -> Result<u32, LexFault>
    requires some { 1 ≤ length tokens.items }
    requires few { length tokens.items ≤ room + 1 }
    ensures added { OnOk result (all.new.items ≡ all.old.items ++ tokens.items ∷ []) }
    ensures left { IfOk result (λ left. left + (length tokens.items - 1) ≡ room) }
    ensures fault { IfErr result (λ fault. fault ≡ LexFault.NoMemory) }
{
    let left = room - (tokens.len() - 1) as u32;
    match all.push(Items::from_vec(tokens)) {
        Ok(()) => Ok(left),
        Err(_) => Err(LexFault::NoMemory),
    }
}

// Adds the tokens of the text of that number, and answers for how many more there is room.
fn lex_next(
    alloc: Global,
    number: usize,
    room: u32,
    text: &[u8],
    names: &mut Names,
    all: &mut Vec<Items<Token>>,
) -> Result<u32, LexFault>
    requires room { room ≤ 2 ^ 20 }
    requires short { length text.now ≤ 2 ^ 31 }
    ensures tokens { IfOk result (λ left. IsTextAdded number room left text.now names.old names.new all.old.items all.new.items) }
    ensures fault { IfErr result (λ fault. fault ≢ LexFault.NoMemory → HasFault number room text.now fault) }
{
    let Ok(file) = u32::try_from(number) else {
        return Err(LexFault::NoMemory);
    };
    if names.len() > 1 << 30 {
        return Err(LexFault::NoMemory);
    }
    let tokens = lex_text(alloc, file, room, text, names)?;
    add_tokens(all, room, tokens)
}

/// The tokens of the texts of files, the first of which has the number 0, with the names of all of
/// them in one table.
///
/// The fault is that of the first text that has one; `Many` comes where there are more than 262,144
/// tokens before any fault. `NoMemory` comes where memory ran out, and where there are 2^32 texts.
pub fn lex_texts(
    alloc: Global,
    texts: &[Items<u8>],
    names: &mut Names,
) -> Result<Vec<Items<Token>>, LexFault>
    requires empty { names.old ≡ [] }
    requires small { sum_by length texts.now ≤ 2 ^ 31 }
    ensures lexed { IfOk result (λ tokens. AreLexed texts.now names.new tokens.items) }
    ensures fault { IfErr result (λ fault. fault ≢ LexFault.NoMemory → HasTextFault texts.now fault) }
{
    tokens_stay_as_names_grow();
    let mut all = Vec::new(alloc);
    let mut room = MOST_TOKENS;
    for number in 0..texts.len() {
        let text = texts[number].as_slice();
        match lex_next(alloc, number, room, text, names, &mut all) {
            Ok(left) => room = left,
            Err(fault) => return Err(fault),
        }
    }
    let _different = names.len();
    Ok(all)
}
