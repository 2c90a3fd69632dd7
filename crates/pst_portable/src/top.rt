//! The calls of the program.
ghost use Rattle.std.specs.Prelude.{◌≡◌, List, ℕ, [], ◌∷◌, map, min, length, drop, string_bytes, vec_len, IfOk, IfErr};
ghost use Rattle.pst_words.specs.declared.command.Command.{Command};
ghost use Rattle.pst_words.specs.declared.command.Lines.TheVariants as lines;
ghost use Rattle.pst_words.specs.Lines.{IsLine};
ghost use Rattle.pst_run_alone.specs.Lanes.{lane as lane_of, HasMade, HaveMade, lanes_told};
ghost use Rattle.pst_outcome.specs.Outcome.{IsOwed};
ghost use Rattle.pst_outcome.specs.Delivered.{Answers, writing};
ghost use Rattle.pst_portable.specs.Replies.{Delivers};

use crate::asked::{reply_alone, reply_on_lanes, reply_swept};
use crate::words::request_of_words;
use pst_base::NoMemory;
use pst_io::{Shelf, Sink, write_all};
use pst_outcome::{Answer, Reply};
use pst_target::{Gate, Target};
use pst_words::Lines;
use std::alloc::Global;
use std::sync::Wait;
use std::thread::Threads;

// Writes the text of a reply, once there is room for all of it.
fn deliver<K: Sink>(sink: &mut K, reply: Reply) -> Answer
    ensures { Delivers reply (writing (K.written sink.old) (K.written sink.new) (K.faults sink.old) (K.faults sink.new)) result }
{
    if sink.reserve(reply.text.len()).is_err() {
        return Answer::NoMemory;
    }
    match write_all(sink, reply.text.as_bytes()) {
        Ok(()) => reply.answer,
        Err(_) => Answer::WriteFault,
    }
}

// The reply to words on one lane.
fn reply_to_words<S: Shelf, T: Target>(
    alloc: Global,
    words: &[String],
    shelf: &mut S,
    lane: &mut T,
) -> Result<Reply, NoMemory>
    ensures same_files { S.files shelf.new ≡ S.files shelf.old }
    ensures owed { IfOk result (λ reply. IsOwed lines.WithoutSweep 1 (map string_bytes words.now) (S.files shelf.old) (S.faults shelf.old) (S.faults shelf.new)
        (lane_of (T.calls lane.old) (T.calls lane.new) (T.faults lane.old) (T.faults lane.new) ∷ []) reply.answer (string_bytes reply.text)) }
    ensures memory { IfErr result (λ e. HasMade (lane_of (T.calls lane.old) (T.calls lane.new) (T.faults lane.old) (T.faults lane.new))) }
    ensures unopened { ((command : Command) (arguments : List (List ℕ)) → IsLine lines.WithoutSweep 1 (map string_bytes words.now) command arguments → ⊥) → S.rest shelf.new ≡ S.rest shelf.old }
{
    let request = request_of_words(alloc, Lines::WithoutSweep, 1, words, shelf)?;
    reply_alone(alloc, request, lane)
}

/// Answers words on one lane, for every command but `sweep`: it reads the words and the files of the
/// line, makes the model of its sources, seeks its first legal scenario, and runs it on the lane, prints
/// its header, judges a trace against it, makes the programs of lanes without an executive, or places
/// what its actions ask for. It returns.
pub fn portable_alone<S: Shelf, K: Sink, T: Target>(
    alloc: Global,
    words: &[String],
    shelf: &mut S,
    sink: &mut K,
    lane: &mut T,
) -> Answer
    // Each answer comes only where it is right, and its text was written and nothing else. What the
    // lane was called for is part of it.
    ensures answer { Answers lines.WithoutSweep 1 (map string_bytes words.now) (S.files shelf.old) (S.faults shelf.old) (S.faults shelf.new)
        (lane_of (T.calls lane.old) (T.calls lane.new) (T.faults lane.old) (T.faults lane.new) ∷ [])
        (writing (K.written sink.old) (K.written sink.new) (K.faults sink.old) (K.faults sink.new)) result }
    ensures same_files { S.files shelf.new ≡ S.files shelf.old }

    // Words that are no line are refused before any file is opened.
    ensures unopened { ((command : Command) (arguments : List (List ℕ)) → IsLine lines.WithoutSweep 1 (map string_bytes words.now) command arguments → ⊥) → S.rest shelf.new ≡ S.rest shelf.old }
{
    match reply_to_words(alloc, words, shelf, lane) {
        Ok(reply) => deliver(sink, reply),
        Err(NoMemory) => Answer::NoMemory,
    }
}

// The reply to words that ask for a sweep.
fn reply_to_sweep<S: Shelf>(
    rt: &(impl Threads + Sync),
    alloc: Global,
    words: &[String],
    shelf: &mut S,
) -> Result<Reply, NoMemory>
    ensures same_files { S.files shelf.new ≡ S.files shelf.old }
    ensures owed { IfOk result (λ reply. IsOwed lines.SweepAlone 1 (map string_bytes words.now) (S.files shelf.old) (S.faults shelf.old) (S.faults shelf.new) [] reply.answer (string_bytes reply.text)) }
    ensures unopened { ((command : Command) (arguments : List (List ℕ)) → IsLine lines.SweepAlone 1 (map string_bytes words.now) command arguments → ⊥) → S.rest shelf.new ≡ S.rest shelf.old }
{
    let request = request_of_words(alloc, Lines::SweepAlone, 1, words, shelf)?;
    reply_swept(rt, alloc, request)
}

/// Answers words that ask for a sweep: it reads the words and the files of the line, makes the model of
/// its sources, and seeks the first legal scenario of each of many seeds, in several threads where these
/// can be started. Words with another command are no line. It returns.
pub fn portable_sweep<S: Shelf, K: Sink>(
    rt: &(impl Threads + Sync),
    alloc: Global,
    words: &[String],
    shelf: &mut S,
    sink: &mut K,
) -> Answer
    // Each answer comes only where it is right, and its text was written and nothing else.
    ensures answer { Answers lines.SweepAlone 1 (map string_bytes words.now) (S.files shelf.old) (S.faults shelf.old) (S.faults shelf.new) []
        (writing (K.written sink.old) (K.written sink.new) (K.faults sink.old) (K.faults sink.new)) result }
    ensures same_files { S.files shelf.new ≡ S.files shelf.old }

    // Words that are no line are refused before any file is opened.
    ensures unopened { ((command : Command) (arguments : List (List ℕ)) → IsLine lines.SweepAlone 1 (map string_bytes words.now) command arguments → ⊥) → S.rest shelf.new ≡ S.rest shelf.old }
{
    match reply_to_sweep(rt, alloc, words, shelf) {
        Ok(reply) => deliver(sink, reply),
        Err(NoMemory) => Answer::NoMemory,
    }
}

// How many lanes a line may have: those that are there, and at most 16.
fn most_lanes(count: usize) -> u32
    ensures { result ≡ min count 16 }
{
    if count < 16 { count as u32 } else { 16 }
}

// The reply to words on some lanes.
fn reply_to_words_on<R: Threads + Wait + Sync, S: Shelf, T: Target + Send, G: Gate + Sync>(
    rt: &R,
    alloc: Global,
    words: &[String],
    shelf: &mut S,
    lanes: &mut Vec<T>,
    gate: &G,
) -> Result<Reply, NoMemory>
    ensures same_files { S.files shelf.new ≡ S.files shelf.old }
    ensures owed { IfOk result (λ reply. IsOwed lines.All (min (vec_len lanes.old) 16) (map string_bytes words.now) (S.files shelf.old) (S.faults shelf.old) (S.faults shelf.new)
        (lanes_told T.calls T.faults lanes.old.items lanes.new.items) reply.answer (string_bytes reply.text)) }
    ensures memory { IfErr result (λ e. HaveMade (lanes_told T.calls T.faults lanes.old.items lanes.new.items)) }
    ensures unopened { ((command : Command) (arguments : List (List ℕ)) → IsLine lines.All (min (vec_len lanes.old) 16) (map string_bytes words.now) command arguments → ⊥) → S.rest shelf.new ≡ S.rest shelf.old }
    ensures others { drop 16 lanes.new.items ≡ drop 16 lanes.old.items }
    ensures as_many { length lanes.new.items ≡ length lanes.old.items }
{
    let have = most_lanes(lanes.len());
    let request = request_of_words(alloc, Lines::All, have, words, shelf)?;
    reply_on_lanes(rt, alloc, request, lanes, gate)
}

/// Answers words on the lanes, for every command: as `portable_alone` does, on the first of them, and as
/// `portable_sweep` does where a sweep is asked for, but that a scenario is run on as many of the first
/// lanes as the line says, each with a worker that passes the gate before each body. Where no lane is
/// handed in no words are a line. It promises nothing of its return.
pub fn portable_stimulus<
    R: Threads + Wait + Sync,
    S: Shelf,
    K: Sink,
    T: Target + Send,
    G: Gate + Sync,
>(
    rt: &R,
    alloc: Global,
    words: &[String],
    shelf: &mut S,
    sink: &mut K,
    lanes: &mut Vec<T>,
    gate: &G,
) -> Answer
    // Each answer comes only where it is right, and its text was written and nothing else. What the
    // lanes were called for is part of it.
    ensures answer { Answers lines.All (min (vec_len lanes.old) 16) (map string_bytes words.now) (S.files shelf.old) (S.faults shelf.old) (S.faults shelf.new)
        (lanes_told T.calls T.faults lanes.old.items lanes.new.items)
        (writing (K.written sink.old) (K.written sink.new) (K.faults sink.old) (K.faults sink.new)) result }
    ensures same_files { S.files shelf.new ≡ S.files shelf.old }

    // Words that are no line are refused before any file is opened.
    ensures unopened { ((command : Command) (arguments : List (List ℕ)) → IsLine lines.All (min (vec_len lanes.old) 16) (map string_bytes words.now) command arguments → ⊥) → S.rest shelf.new ≡ S.rest shelf.old }

    // The lanes beyond the sixteenth are as they were.
    ensures others { drop 16 lanes.new.items ≡ drop 16 lanes.old.items }
    ensures as_many { length lanes.new.items ≡ length lanes.old.items }
{
    match reply_to_words_on(rt, alloc, words, shelf, lanes, gate) {
        Ok(reply) => deliver(sink, reply),
        Err(NoMemory) => Answer::NoMemory,
    }
}
