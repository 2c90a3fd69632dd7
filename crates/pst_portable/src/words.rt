//! Words, before any lane is called.
ghost use Rattle.std.specs.Prelude.{◌≡◌, ◌<◌, ◌≤◌, List, ℕ, map, length, string_bytes, IfOk};
ghost use Rattle.pst_run_alone.specs.Lanes.{Lane};
ghost use Rattle.pst_words.specs.declared.command.Command.{Command as AnyCommand};
ghost use Rattle.pst_words.specs.declared.command.Lines.{Lines as AnyLines};
ghost use Rattle.pst_words.specs.Lines.{IsLine};
ghost use Rattle.pst_files_read.specs.Limits.{most_trace};
ghost use Rattle.pst_outcome.specs.declared.answer.Answer.{Answer as AnyAnswer};
ghost use Rattle.pst_outcome.specs.Outcome.{bytes_of};
ghost use Rattle.pst_line_parts.specs.Lines.{AreBehind};
ghost use Rattle.pst_front.specs.Stages.{front_of, HasSoundModel};
ghost use Rattle.pst_portable.specs.Replies.{IsDone};
ghost use Rattle.pst_portable.specs.Requests.{SaysUsage, IsServable, IsAnswered, IsRequest};

use crate::replies::usage;
use crate::request::{Question, Request};
use crate::task::task_of;
use pst_base::NoMemory;
use pst_front::{LineFront, Stage, front_of_line};
use pst_io::Shelf;
use pst_words::{Line, Lines, read_words};
use std::alloc::Global;

// The request of a line whose files and sources come to that.
fn request_of_front(line: &Line<'_>, front: LineFront) -> Request
    requires behind { AreBehind line.now.command (map string_bytes line.now.arguments.now) }
    requires sound { HasSoundModel front.stage }
    requires small { length (bytes_of front.trace) ≤ most_trace }
    ensures servable { (lines : AnyLines) (have : ℕ) (words : List (List ℕ)) → have ≤ 16 → IsLine lines have words line.now.command (map string_bytes line.now.arguments.now) → IsServable lines have result }
    ensures done { (lanes : List Lane) (answer : AnyAnswer) (text : List ℕ) → IsAnswered result lanes answer text
        → IsDone line.now.command (map string_bytes line.now.arguments.now) (bytes_of front.trace) lanes (front_of front.stage) answer text }
{
    let LineFront { stage, trace } = front;
    match stage {
        Stage::Ended(reply) => Request::Answered(reply),
        Stage::Elaborated { names, model, root } => Request::Asked(Question {
            names,
            model,
            root,
            task: task_of(line),
            trace,
        }),
    }
}

// The request of a line.
fn request_of_line<S: Shelf>(
    alloc: Global,
    line: &Line<'_>,
    shelf: &mut S,
) -> Result<Request, NoMemory>
    requires { AreBehind line.now.command (map string_bytes line.now.arguments.now) }
    ensures same_files { S.files shelf.new ≡ S.files shelf.old }
    ensures servable { IfOk result (λ request. (lines : AnyLines) (have : ℕ) (words : List (List ℕ)) → have ≤ 16 → IsLine lines have words line.now.command (map string_bytes line.now.arguments.now) → IsServable lines have request) }
    ensures is { IfOk result (λ request. (lines : AnyLines) (have : ℕ) (words : List (List ℕ)) → IsLine lines have words line.now.command (map string_bytes line.now.arguments.now)
        → IsRequest lines have words (S.files shelf.old) (S.faults shelf.old) (S.faults shelf.new) request) }
{
    match front_of_line(alloc, line, shelf) {
        Ok(front) => Ok(request_of_front(line, front)),
        Err(NoMemory) => Err(NoMemory),
    }
}

// The request of words that are no line.
fn request_of_no_line(alloc: Global, word: u32) -> Result<Request, NoMemory>
    ensures { IfOk result (SaysUsage word) }
{
    let reply = usage(alloc, word)?;
    Ok(Request::Answered(reply))
}

/// The request of words, where so many lanes are there.
pub(crate) fn request_of_words<S: Shelf>(
    alloc: Global,
    lines: Lines,
    have: u32,
    words: &[String],
    shelf: &mut S,
) -> Result<Request, NoMemory>
    requires { have ≤ 16 }
    ensures same_files { S.files shelf.new ≡ S.files shelf.old }
    ensures servable { IfOk result (IsServable lines have) }
    ensures is { IfOk result (IsRequest lines have (map string_bytes words.now) (S.files shelf.old) (S.faults shelf.old) (S.faults shelf.new)) }
    ensures unopened { ((command : AnyCommand) (arguments : List (List ℕ)) → IsLine lines have (map string_bytes words.now) command arguments → ⊥) → S.rest shelf.new ≡ S.rest shelf.old }
{
    match read_words(lines, have, words) {
        Ok(line) => request_of_line(alloc, &line, shelf),
        Err(word) => request_of_no_line(alloc, word),
    }
}
