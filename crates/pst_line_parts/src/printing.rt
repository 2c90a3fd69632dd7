//! The texts that are printed where sources have no model.
ghost use Rattle.std.specs.Prelude.{◌≡◌, map, string_bytes, IfOk};
ghost use Rattle.pst_outcome.specs.Texts;

use pst_base::{NoMemory, Place};
use pst_outcome::What;
use pst_words::is_file_name;
use std::alloc::Global;

/// The name of the source of that number among the words behind a command; `root` where there is
/// none.
pub fn source_name(arguments: &[String], number: u32) -> &str
    ensures { result.now ≡ Texts.source_name (map string_bytes arguments.now) number }
{
    let mut left = number;
    for i in 0..arguments.len() {
        let word = arguments[i].as_str();
        if !is_file_name(word.as_bytes()) {
            continue;
        }
        if left == 0 {
            return word;
        }
        left -= 1;
    }
    "root"
}

/// `nofile NAME`.
pub fn no_file_text(alloc: Global, name: &str) -> Result<String, NoMemory>
    ensures { IfOk result (λ text. string_bytes text ≡ Texts.no_file_text name.now) }
{
    Ok(format!(in alloc; "nofile {name}\n")?)
}

/// `readfault NAME`.
pub fn read_fault_text(alloc: Global, name: &str) -> Result<String, NoMemory>
    ensures { IfOk result (λ text. string_bytes text ≡ Texts.read_fault_text name.now) }
{
    Ok(format!(in alloc; "readfault {name}\n")?)
}

// What a limit is on.
fn what_text(what: What) -> &'static str
    ensures { result.now ≡ Texts.what_text what }
{
    match what {
        What::Bytes => "bytes",
        What::Trace => "trace",
        What::Tokens => "tokens",
        What::Instances => "instances",
    }
}

/// `large WHAT NUMBER`.
pub fn large_text(alloc: Global, what: What, number: u64) -> Result<String, NoMemory>
    ensures { IfOk result (λ text. string_bytes text ≡ Texts.large_text what number) }
{
    let what = what_text(what);
    Ok(format!(in alloc; "large {what} {number}\n")?)
}

/// `lexical bad NAME:LINE:COLUMN`, or `wide` for `bad`.
pub fn lexical_text(alloc: Global, name: &str, wide: bool, place: Place) -> Result<String, NoMemory>
    ensures { IfOk result (λ text. string_bytes text ≡ Texts.lexical_text name.now wide place) }
{
    let sort = if wide { "wide" } else { "bad" };
    let (line, column) = (place.line, place.column);
    Ok(format!(in alloc; "lexical {sort} {name}:{line}:{column}\n")?)
}

/// `syntax NAME:LINE:COLUMN`, or `syntax deep` in its place.
pub fn syntax_text(alloc: Global, name: &str, deep: bool, place: Place) -> Result<String, NoMemory>
    ensures { IfOk result (λ text. string_bytes text ≡ Texts.syntax_text name.now deep place) }
{
    let sort = if deep { "deep " } else { "" };
    let Place { line, column, .. } = place;
    Ok(format!(in alloc; "syntax {sort}{name}:{line}:{column}\n")?)
}

/// `rule RULE NAME:LINE:COLUMN`.
pub fn rule_text(alloc: Global, name: &str, place: Place, rule: u8) -> Result<String, NoMemory>
    ensures { IfOk result (λ text. string_bytes text ≡ Texts.rule_text name.now place rule) }
{
    let Place { line, column, .. } = place;
    Ok(format!(in alloc; "rule {rule} {name}:{line}:{column}\n")?)
}
