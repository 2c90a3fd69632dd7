//! Stages at which there is an answer.
ghost use Rattle.std.specs.Prelude.{◌≡◌, map, string_bytes, IfOk};
ghost use Rattle.pst_outcome.specs.Texts;
ghost use Rattle.pst_front.specs.Stages.{Says};

use crate::stage::Stage;
use pst_base::{NoMemory, Place};
use pst_line_parts::{
    large_text, lexical_text, no_file_text, read_fault_text, rule_text, source_name, syntax_text,
};
use pst_outcome::{Answer, Reply, What};
use std::alloc::Global;

/// There is no file of that name.
pub(crate) fn no_file(alloc: Global, word: u32, name: &str) -> Result<Stage, NoMemory>
    ensures { IfOk result (Says (Answer.NoFile word) (Texts.no_file_text name.now)) }
{
    let text = no_file_text(alloc, name)?;
    Ok(Stage::Ended(Reply {
        answer: Answer::NoFile { word },
        text,
    }))
}

/// The file of that name couldn't be read.
pub(crate) fn read_fault(alloc: Global, word: u32, name: &str) -> Result<Stage, NoMemory>
    ensures { IfOk result (Says (Answer.ReadFault word) (Texts.read_fault_text name.now)) }
{
    let text = read_fault_text(alloc, name)?;
    Ok(Stage::Ended(Reply {
        answer: Answer::ReadFault { word },
        text,
    }))
}

/// A count exceeds its limit; the number is the limit plus 1.
pub(crate) fn large(alloc: Global, what: What, number: u64) -> Result<Stage, NoMemory>
    ensures { IfOk result (Says (Answer.Large what number) (Texts.large_text what number)) }
{
    let text = large_text(alloc, what, number)?;
    Ok(Stage::Ended(Reply {
        answer: Answer::Large { what, number },
        text,
    }))
}

/// A source is no list of tokens.
pub(crate) fn lexical(
    alloc: Global,
    arguments: &[String],
    wide: bool,
    place: Place,
) -> Result<Stage, NoMemory>
    ensures { IfOk result (Says (Answer.Lexical wide place) (Texts.lexical_text (Texts.source_name (map string_bytes arguments.now) place.file) wide place)) }
{
    let name = source_name(arguments, place.file);
    let text = lexical_text(alloc, name, wide, place)?;
    Ok(Stage::Ended(Reply {
        answer: Answer::Lexical { wide, place },
        text,
    }))
}

/// A list of tokens is no unit.
pub(crate) fn syntax(
    alloc: Global,
    arguments: &[String],
    deep: bool,
    place: Place,
) -> Result<Stage, NoMemory>
    ensures { IfOk result (Says (Answer.Syntax deep place) (Texts.syntax_text (Texts.source_name (map string_bytes arguments.now) place.file) deep place)) }
{
    let name = source_name(arguments, place.file);
    let text = syntax_text(alloc, name, deep, place)?;
    Ok(Stage::Ended(Reply {
        answer: Answer::Syntax { deep, place },
        text,
    }))
}

/// The units break a rule.
pub(crate) fn broken(
    alloc: Global,
    arguments: &[String],
    place: Place,
    rule: u8,
) -> Result<Stage, NoMemory>
    ensures { IfOk result (Says (Answer.Rule place rule) (Texts.rule_text (Texts.source_name (map string_bytes arguments.now) place.file) place rule)) }
{
    let name = source_name(arguments, place.file);
    let text = rule_text(alloc, name, place, rule)?;
    Ok(Stage::Ended(Reply {
        answer: Answer::Rule { place, rule },
        text,
    }))
}
