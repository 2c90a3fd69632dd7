//! What is answered on the tokens of texts.
ghost use Rattle.std.specs.Prelude.{◌≢◌, ◌^◌, ◌<◌, ◌≤◌, length, IfOk, IfErr};
ghost use Rattle.pst_token.specs.Tokens.{AreTokens};
ghost use Rattle.pst_lexer.specs.Fault.{HasFault};

use pst_base::{NameId, Names};
use pst_cases::write_mark;
use pst_lexer::{LexFault, Lexer};
use pst_token::{Kind, Token, kind_of, spelling};
use std::alloc::{AllocError, Global};

// The outcome of a text that is fed in pieces of this length.
fn outcome(
    alloc: Global,
    text: &[u8],
    step: usize,
    room: u32,
    names: &mut Names,
) -> Result<Vec<Token>, LexFault>
    requires step { 0 < step }
    requires room { room ≤ 2 ^ 20 }
    requires text { length text.now ≤ 2 ^ 30 }
    requires names { length names.old ≤ 2 ^ 20 }
    ensures tokens { IfOk result (λ tokens. AreTokens 0 names.new text.now tokens.items) }
    ensures fault { IfErr result (λ f. f ≢ LexFault.NoMemory → HasFault 0 room text.now f) }
{
    let mut lexer = Lexer::new(alloc, 0, room);
    let mut at = 0;
    'pieces: while at < text.len() {
        let end = at + step.min(text.len() - at);
        lexer.feed(&text[at..end], names)?;
        at = end;
    }
    lexer.finish(names)
}

// A token as a label: what it is spelled as, or what it is with its number.
fn write_label(label: &mut String, token: &Token) -> Result<(), AllocError> {
    match (token.kind, token.name.0, token.number) {
        (Kind::Name, name, 0) => write!(label, "name {name}"),
        (Kind::Number, 0, number) => write!(label, "number {number}"),
        (Kind::End, 0, 0) => label.push_str("end"),
        (kind, 0, 0) => label.push_str(spelling(kind)),
        _ => label.push_str("odd"),
    }
}

/// A word, and tokens with their places.
pub fn labelled(alloc: Global, word: &str, tokens: &[Token]) -> Result<String, AllocError> {
    let mut answer = String::from_str(alloc, word)?;
    for token in tokens {
        let mut label = String::new(alloc);
        write_label(&mut label, token)?;
        write_mark(&mut answer, label.as_str(), token.place)?;
    }
    Ok(answer)
}

// The names in order of number.
fn name_list(alloc: Global, names: &Names) -> Result<String, AllocError> {
    let mut list = String::from_str(alloc, "names")?;
    for number in 0..names.len() {
        list.push(' ')?;
        list.push_str(names.text(NameId(number)))?;
    }
    Ok(list)
}

// The fault of a text.
fn faulty(alloc: Global, fault: LexFault) -> Result<String, AllocError> {
    let (word, place) = match fault {
        LexFault::Bad(place) => ("bad", place),
        LexFault::Wide(place) => ("wide", place),
        LexFault::Many => return String::from_str(alloc, "many"),
        LexFault::NoMemory => return String::from_str(alloc, "no memory"),
    };
    let mut answer = String::from_str(alloc, word)?;
    write_mark(&mut answer, "", place)?;
    Ok(answer)
}

// What a text is answered that is fed in pieces of this length.
fn told(alloc: Global, text: &[u8], step: usize, room: u32) -> Result<String, AllocError>
    requires step { 0 < step }
    requires room { room ≤ 2 ^ 20 }
    requires text { length text.now ≤ 2 ^ 30 }
{
    let mut names = Names::new(alloc);
    match outcome(alloc, text, step, room, &mut names) {
        Ok(tokens) => {
            let list = name_list(alloc, &names)?;
            labelled(alloc, list.as_str(), tokens.as_slice())
        }
        Err(fault) => faulty(alloc, fault),
    }
}

/// Answers `tokens` where there is room for so many as `number` says, whatever the pieces in which
/// the text is fed: the names in order of number, and the tokens with their places, or the fault and
/// its place. A label is a token.
pub fn tokens(alloc: Global, text: &[u8], room: u32) -> Result<String, AllocError> {
    if text.len() > 1 << 20 || room > 1 << 20 {
        return String::from_str(alloc, "too long");
    }
    let whole = told(alloc, text, 1 << 20, room)?;
    for step in [1usize, 2, 3, 7] {
        if step > 0 {
            let piecewise = told(alloc, text, step, room)?;
            if piecewise != whole {
                return format!(in alloc; "other tokens in pieces of {step}");
            }
        }
    }
    Ok(whole)
}

/// Answers `count` where there is room for so many as `number` says: the number of tokens, or the
/// fault and its place.
pub fn count(alloc: Global, text: &[u8], room: u32) -> Result<String, AllocError> {
    if text.len() > 1 << 20 || room > 1 << 20 {
        return String::from_str(alloc, "too long");
    }
    let mut names = Names::new(alloc);
    match outcome(alloc, text, 4096, room, &mut names) {
        Ok(tokens) => {
            let number = tokens.len();
            format!(in alloc; "{number}")
        }
        Err(fault) => faulty(alloc, fault),
    }
}

/// Answers `kinds`: whether each word of a text has a kind that is spelled as the word is: `all`,
/// `none` or `some`.
pub fn kinds(alloc: Global, text: &[u8]) -> Result<String, AllocError> {
    let mut known: u32 = 0;
    let mut unknown: u32 = 0;
    for word in text.split(|byte| *byte == b' ') {
        match kind_of(word) {
            Some(kind) if spelling(kind).as_bytes() == word => known = known.wrapping_add(1),
            _ => unknown = unknown.wrapping_add(1),
        }
    }
    let answer = match (known, unknown) {
        (_, 0) => "all",
        (0, _) => "none",
        _ => "some",
    };
    String::from_str(alloc, answer)
}
