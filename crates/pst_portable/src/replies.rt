//! The reply to words that are no line.
ghost use Rattle.std.specs.Prelude.{◌≡◌, string_bytes, IfOk};
ghost use Rattle.pst_outcome.specs.Texts;
ghost use Rattle.pst_portable.specs.Replies.{Says};

use pst_base::NoMemory;
use pst_outcome::{Answer, Reply};
use std::alloc::Global;

// `usage WORD`.
fn usage_text(alloc: Global, word: u32) -> Result<String, NoMemory>
    ensures { IfOk result (λ text. string_bytes text ≡ Texts.usage_text word) }
{
    Ok(format!(in alloc; "usage {word}\n")?)
}

/// The reply to words that are no line.
pub(crate) fn usage(alloc: Global, word: u32) -> Result<Reply, NoMemory>
    ensures { IfOk result (Says (Answer.Usage word) (Texts.usage_text word)) }
{
    let text = usage_text(alloc, word)?;
    Ok(Reply {
        answer: Answer::Usage { word },
        text,
    })
}
