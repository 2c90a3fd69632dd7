//! Lines of blocks.
ghost use Rattle.std.specs.Prelude.{◌≡◌, ◌++◌, ◌∷◌, [], ℕ, List, true, codes, IfOk, MatchBool, MatchOption};
ghost use Rattle.pst_scen.specs.declared.event.Event.{Event as AnyEvent};
ghost use Rattle.pst_trace_lines.specs.Forms.{IsEnd};
ghost use Rattle.pst_trace_lines.specs.Blocks.{ArePairs, IsPair, IsStartLine, IsBlockLine};

use crate::lines::read_end;
use crate::numbers::{cut, number};
use pst_base::NoMemory;
use pst_scen::Event;

/// The action and the lane of a pair.
fn pair(text: &[u8]) -> Option<(u32, u32)>
    ensures { MatchOption result ((act lane : ℕ) → IsPair text.now act lane → ⊥) (λ p. IsPair text.now p.0 p.1) }
{
    let Some((first, second)) = cut(text, b':') else {
        return None;
    };
    let Some(act) = number(first) else {
        return None;
    };
    let Some(lane) = number(second) else {
        return None;
    };
    if lane > 15 {
        return None;
    }
    Some((act, lane))
}

/// The starts of pairs, behind those of a list. Where the text is no pairs, the list is of no use.
fn read_pairs(text: &[u8], events: &mut Vec<Event>) -> Result<bool, NoMemory>
    ensures { IfOk result (λ good. MatchBool good
        ((own : List AnyEvent) × (events.new.items ≡ events.old.items ++ own) × ArePairs text.now own)
        ((own : List AnyEvent) → ArePairs text.now own → ⊥)) }
{
    let mut rest = text;
    'pairs: while let Some((first, more)) = cut(rest, b' ') {
        let Some((act, lane)) = pair(first) else {
            return Ok(false);
        };
        events.push(Event::Start {
            act,
            lane,
            more: true,
        })?;
        rest = more;
    }
    let Some((act, lane)) = pair(rest) else {
        return Ok(false);
    };
    events.push(Event::Start {
        act,
        lane,
        more: false,
    })?;
    Ok(true)
}

/// The starts of a line, behind those of a list.
fn read_starts(line: &[u8], events: &mut Vec<Event>) -> Result<bool, NoMemory>
    ensures { IfOk result (λ good. MatchBool good
        ((own : List AnyEvent) × (events.new.items ≡ events.old.items ++ own) × IsStartLine line.now own)
        ((own : List AnyEvent) → IsStartLine line.now own → ⊥)) }
{
    match line.strip_prefix(b"start ".as_slice()) {
        Some(rest) => read_pairs(rest, events),
        None => Ok(false),
    }
}

/// The events of the block that the line is, behind those of a list. Where it is none, the list is
/// of no use.
pub fn read_block(line: &[u8], events: &mut Vec<Event>) -> Result<bool, NoMemory>
    ensures { IfOk result (λ good. MatchBool good
        ((own : List AnyEvent) × (events.new.items ≡ events.old.items ++ own) × IsBlockLine line.now own)
        ((own : List AnyEvent) → IsBlockLine line.now own → ⊥)) }
{
    if let Some(act) = read_end(line) {
        events.push(Event::End { act })?;
        return Ok(true);
    }
    read_starts(line, events)
}
