//! The models of files: these are put on a shelf, and a line of words that names them is read.
ghost use Rattle.std.specs.Prelude.{map, string_bytes};
ghost use Rattle.pst_line_parts.specs.Lines.{AreBehind};

use pst_base::NoMemory;
use pst_cases::{read_marked, write_mark};
use pst_front::{Stage, front_of_line};
use pst_io::MemoryShelf;
use pst_model_texts::model_text;
use pst_outcome::Answer;
use pst_words::{Line, Lines, read_words};
use std::alloc::{AllocError, Global};

// The words of a line that asks for a scenario of a root, over so many files.
fn words_of(alloc: Global, root: &str, count: usize) -> Result<Vec<String>, AllocError> {
    let mut words = Vec::new(alloc);
    words.push(String::from_str(alloc, "solve")?)?;
    words.push(format!(in alloc; "root={root}")?)?;
    for number in 0..count {
        words.push(format!(in alloc; "{number}.pss")?)?;
    }
    Ok(words)
}

// A shelf of files.
fn shelf_of(alloc: Global, texts: Vec<Vec<u8>>) -> Result<MemoryShelf, AllocError> {
    let mut files = Vec::new(alloc);
    let mut number = 0usize;
    for text in texts {
        files.push((format!(in alloc; "{number}.pss")?, text))?;
        number = number.wrapping_add(1);
    }
    Ok(MemoryShelf::new(files, Vec::new(alloc)))
}

// Why there is no model. The rule of the root has no place in a file.
fn ended(alloc: Global, answer: &Answer) -> Result<String, AllocError> {
    match answer {
        Answer::Large { number, .. } => format!(in alloc; "many {number}"),
        Answer::Rule { place, rule } if place.file == u32::MAX => {
            format!(in alloc; "{rule} root:{}:{}", place.line, place.column)
        }
        Answer::Rule { place, rule } => {
            let mut answer = format!(in alloc; "{rule}")?;
            write_mark(&mut answer, "", *place)?;
            Ok(answer)
        }
        _ => String::from_str(alloc, "unread"),
    }
}

// What a stage is.
fn told(alloc: Global, stage: &Stage) -> Result<String, AllocError> {
    match stage {
        Stage::Ended(reply) => ended(alloc, &reply.answer),
        Stage::Elaborated { names, model, root } => model_text(alloc, names, model, *root),
    }
}

// What the files of a line come to.
fn of_line(alloc: Global, line: &Line<'_>, shelf: &mut MemoryShelf) -> Result<String, AllocError>
    requires { AreBehind line.now.command (map string_bytes line.now.arguments.now) }
{
    match front_of_line(alloc, line, shelf) {
        Ok(front) => told(alloc, &front.stage),
        Err(NoMemory) => String::from_str(alloc, "no memory"),
    }
}

// What files come to: their model, the least rule that they break with its place, or how many
// instances there are.
fn answer(alloc: Global, root: &str, texts: Vec<Vec<u8>>) -> Result<String, AllocError> {
    let words = words_of(alloc, root, texts.len())?;
    let mut shelf = shelf_of(alloc, texts)?;
    match read_words(Lines::All, 1, words.as_slice()) {
        Ok(line) => of_line(alloc, &line, &mut shelf),
        Err(_) => String::from_str(alloc, "no line"),
    }
}

/// What must be answered to a case of a model, and what is.
pub fn compared(
    alloc: Global,
    root: &str,
    owed: &str,
    text: &str,
) -> Result<(String, String), AllocError> {
    let source = read_marked(alloc, text)?;
    let wanted = source.wanted(alloc, owed)?;
    let found = answer(alloc, root, source.files)?;
    Ok((wanted, found))
}
