//! Scenarios, events and last lines that are written as texts.
use crate::models::number;
use pst_base::{Items, NoMemory};
use pst_scen::{Act, Claimed, Event, Fill, Filled, First, Flow, Link, Node, Scenario};
use pst_trace_texts::Last;
use std::alloc::Global;
use std::str::SplitWhitespace;

// The numbers of the words that are left.
fn values(alloc: Global, words: SplitWhitespace<'_>) -> Result<Items<i64>, NoMemory> {
    let mut values = Vec::new(alloc);
    for word in words {
        values.push(word.parse::<i64>().unwrap_or(0))?;
    }
    Ok(Items::from_vec(values))
}

// `compound TYPE INSTANCE VALUES`, `leaf ACTION`, `joined BITS`, `select`, `turn` or another word for
// a sequence.
fn fill(alloc: Global, text: &str) -> Result<Fill, NoMemory> {
    let mut words = text.split_whitespace();
    let kind = words.next().unwrap_or("");
    match kind {
        "compound" => {
            let action = number(words.next().unwrap_or(""));
            let instance = number(words.next().unwrap_or(""));
            let fields = values(alloc, words)?;
            Ok(Fill::Compound {
                action,
                instance,
                fields,
            })
        }
        "leaf" => Ok(Fill::Leaf {
            act: number(words.next().unwrap_or("")),
        }),
        "joined" => Ok(Fill::Joined {
            parallel: true,
            joined: words.next().unwrap_or("").parse::<u64>().unwrap_or(0),
        }),
        _ => Ok(Fill::Sequence),
    }
}

fn nodes(alloc: Global, texts: &str) -> Result<Vec<Node>, NoMemory> {
    let mut nodes = Vec::new(alloc);
    for text in texts.split(';') {
        let fill = fill(alloc, text)?;
        nodes.push(Node { parent: None, fill })?;
    }
    Ok(nodes)
}

fn flow(word: &str) -> Flow {
    match word {
        "buffer-in" => Flow::BufferIn,
        "buffer-out" => Flow::BufferOut,
        "stream-in" => Flow::StreamIn,
        "stream-out" => Flow::StreamOut,
        "state-in" => Flow::StateIn,
        _ => Flow::StateOut,
    }
}

// `initial`, `nothing` or `ACTION.REFERENCE`.
fn link(word: &str) -> Link {
    match word.split_once('.') {
        Some((act, reference)) => Link::Act {
            act: number(act),
            reference: number(reference),
        },
        None if word == "initial" => Link::Initial,
        None => Link::Nothing,
    }
}

// `FLOW LINK VALUES`.
fn reference(alloc: Global, text: &str) -> Result<Filled, NoMemory> {
    let mut words = text.split_whitespace();
    let flow = flow(words.next().unwrap_or(""));
    let link = link(words.next().unwrap_or(""));
    let values = values(alloc, words)?;
    Ok(Filled {
        pool: 0,
        flow,
        values,
        link,
    })
}

fn references(alloc: Global, texts: &str) -> Result<Items<Filled>, NoMemory> {
    let mut references = Vec::new(alloc);
    for text in texts.split(',') {
        if !text.trim().is_empty() {
            let found = reference(alloc, text)?;
            references.push(found)?;
        }
    }
    Ok(Items::from_vec(references))
}

// `INSTANCE VALUES`.
fn claim(alloc: Global, text: &str) -> Result<Claimed, NoMemory> {
    let mut words = text.split_whitespace();
    let instance = number(words.next().unwrap_or(""));
    let values = values(alloc, words)?;
    Ok(Claimed {
        pool: 0,
        lock: true,
        instance,
        values,
    })
}

fn claims(alloc: Global, texts: &str) -> Result<Items<Claimed>, NoMemory> {
    let mut claims = Vec::new(alloc);
    for text in texts.split(',') {
        if !text.trim().is_empty() {
            let found = claim(alloc, text)?;
            claims.push(found)?;
        }
    }
    Ok(Items::from_vec(claims))
}

// `TYPE INSTANCE leaf VALUES / REFERENCES / CLAIMS`, or with another word than `leaf`.
fn act(alloc: Global, text: &str) -> Result<Act, NoMemory> {
    let mut parts = text.split('/');
    let mut words = parts.next().unwrap_or("").split_whitespace();
    let action = number(words.next().unwrap_or(""));
    let instance = number(words.next().unwrap_or(""));
    let is_leaf = words.next().unwrap_or("") == "leaf";
    let fields = values(alloc, words)?;
    let references = references(alloc, parts.next().unwrap_or(""))?;
    let claims = claims(alloc, parts.next().unwrap_or(""))?;
    Ok(Act {
        action,
        instance,
        node: if is_leaf { Some(0) } else { None },
        fields,
        references,
        claims,
    })
}

fn acts(alloc: Global, texts: &str) -> Result<Vec<Act>, NoMemory> {
    let mut acts = Vec::new(alloc);
    for text in texts.split(';') {
        if !text.trim().is_empty() {
            let found = act(alloc, text)?;
            acts.push(found)?;
        }
    }
    Ok(acts)
}

// `POOL VALUES`.
fn firsts(alloc: Global, texts: &str) -> Result<Vec<First>, NoMemory> {
    let mut firsts = Vec::new(alloc);
    for text in texts.split(';') {
        let mut words = text.split_whitespace();
        if let Some(pool) = words.next() {
            let values = values(alloc, words)?;
            firsts.push(First {
                pool: number(pool),
                values,
            })?;
        }
    }
    Ok(firsts)
}

/// The scenario of these nodes, actions and first objects. Actions that are no leaves are inferred.
pub fn scenario_of(
    alloc: Global,
    node_texts: &str,
    act_texts: &str,
    first_texts: &str,
) -> Result<Scenario, NoMemory> {
    let nodes = Items::from_vec(nodes(alloc, node_texts)?);
    let actions = Items::from_vec(acts(alloc, act_texts)?);
    let firsts = Items::from_vec(firsts(alloc, first_texts)?);
    let inferred = actions
        .as_slice()
        .iter()
        .filter(|act| act.node.is_none())
        .count();
    Ok(Scenario {
        level: u32::try_from(inferred).unwrap_or(0),
        nodes,
        actions,
        firsts,
    })
}

// `ACTION:LANE`, with `+` behind it where the block goes on, or `end ACTION`.
fn event(text: &str) -> Option<Event> {
    let text = text.trim();
    if let Some(act) = text.strip_prefix("end ") {
        return Some(Event::End { act: number(act) });
    }
    let (act, rest) = text.split_once(':')?;
    let (lane, more) = match rest.strip_suffix("+") {
        Some(lane) => (lane, true),
        None => (rest, false),
    };
    Some(Event::Start {
        act: number(act),
        lane: number(lane),
        more,
    })
}

/// The events of a text.
pub fn events_of(alloc: Global, texts: &str) -> Result<Vec<Event>, NoMemory> {
    let mut events = Vec::new(alloc);
    for text in texts.split(';') {
        if let Some(found) = event(text) {
            events.push(found)?;
        }
    }
    Ok(events)
}

/// What a last line says: `done`, `fault LANE ACTION CALL`, `trap LANE ACTION KIND`, or else `solved`.
pub fn last_of(text: &str) -> Last {
    let mut words = text.split_whitespace();
    let kind = words.next().unwrap_or("");
    let lane = number(words.next().unwrap_or(""));
    let action = number(words.next().unwrap_or(""));
    let third = number(words.next().unwrap_or(""));
    match kind {
        "done" => Last::Done,
        "fault" => Last::Fault {
            lane,
            action,
            call: third,
        },
        "trap" => Last::Trap {
            lane,
            action,
            kind: u8::try_from(third).unwrap_or(0),
        },
        _ => Last::Solved,
    }
}
