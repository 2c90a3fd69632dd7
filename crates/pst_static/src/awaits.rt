//! What the actions of a lane await.
//!
//! An action awaits what is news to its lane: of each other lane the latest action that it needs,
//! where that was dealt behind all of that lane that is awaited so far. The least is written first,
//! and then it is no news any more. Each time all lanes are looked at, of which there are 16 at most.
ghost use Rattle.std.specs.Prelude.{◌≡◌, ◌⊎◌, ◌+◌, ◌<◌, ◌≤◌, ℕ, length, get_or, Some, slice_get, OnOk, MatchOption};
ghost use Rattle.std.specs.Global.{Vec};
ghost use Rattle.pst_static.specs.Awaiting.{AreOnce, IsDealtAt, HavePlaces, IsNews, IsFirstNews, IsLeastOf, IsNewsWritten, AreHeard};

use pst_base::NoMemory;
use pst_programs::Instruction;

/// The place, counted from 1, of the last action of the lane that the given one needs, or 0.
fn place_at(dealt: &[(u32, u32)], latest: &[Vec<u32>], lane: usize, act: u32) -> u32
    requires places { HavePlaces dealt.now latest.now act }
    requires lane_in { lane < length latest.now }
    ensures is { (row : Vec ℕ) → slice_get latest.now lane ≡ Some row → result ≡ get_or row.items act 0 }
    ensures within { result ≤ length dealt.now }
{
    latest[lane][act as usize]
}

/// The action that was dealt at a place, counted from 1.
fn action_at(dealt: &[(u32, u32)], place: u32) -> u32
    requires some { 0 < place }
    requires within { place ≤ length dealt.now }
    ensures { (x m : ℕ) → IsDealtAt dealt.now place x m → result ≡ x }
{
    dealt[place as usize - 1].0
}

/// The action of the other lane that is news, if there is one.
fn news_at(
    dealt: &[(u32, u32)],
    latest: &[Vec<u32>],
    heard: &[u32],
    act: u32,
    lane: usize,
    other: usize,
) -> Option<u32>
    requires places { HavePlaces dealt.now latest.now act }
    requires many { length heard.now ≡ length latest.now }
    requires other_in { other < length latest.now }
    ensures { MatchOption result ((x : ℕ) → IsNews dealt.now latest.now heard.now act lane other x → ⊥) (λ x. IsNews dealt.now latest.now heard.now act lane other x) }
{
    if other == lane {
        return None;
    }
    let place = place_at(dealt, latest, other, act);
    let before = heard[other];
    if place <= before {
        return None;
    }
    Some(action_at(dealt, place))
}

/// The lesser of what was found so far, if anything was, and another action, with its lane.
fn least_of(found: Option<(usize, u32)>, other: usize, action: u32) -> Option<(usize, u32)>
    ensures { IsLeastOf found other action result }
{
    match found {
        None => Some((other, action)),
        Some((lane, least)) => {
            if action < least {
                Some((other, action))
            } else {
                Some((lane, least))
            }
        }
    }
}

/// The least action that is news of the lanes up to the given one, and its lane, where that of the
/// lanes before is known.
fn with_news(
    dealt: &[(u32, u32)],
    latest: &[Vec<u32>],
    heard: &[u32],
    act: u32,
    lane: usize,
    other: usize,
    found: Option<(usize, u32)>,
) -> Option<(usize, u32)>
    requires places { HavePlaces dealt.now latest.now act }
    requires many { length heard.now ≡ length latest.now }
    requires other_in { other < length latest.now }
    requires so_far { IsFirstNews dealt.now latest.now heard.now act lane other found }
    ensures { IsFirstNews dealt.now latest.now heard.now act lane (other + 1) result }
{
    match news_at(dealt, latest, heard, act, lane, other) {
        None => found,
        Some(action) => least_of(found, other, action),
    }
}

/// The least action that is news, and its lane.
fn next_news(
    dealt: &[(u32, u32)],
    latest: &[Vec<u32>],
    heard: &[u32],
    act: u32,
    lane: usize,
) -> Option<(usize, u32)>
    requires places { HavePlaces dealt.now latest.now act }
    requires many { length heard.now ≡ length latest.now }
    ensures { IsFirstNews dealt.now latest.now heard.now act lane (length latest.now) result }
{
    let mut found = None;
    for other in 0..latest.len() {
        found = with_news(dealt, latest, heard, act, lane, other, found);
    }
    found
}

/// Writes what the action awaits, ascending, and marks it.
pub(crate) fn write_awaits(
    dealt: &[(u32, u32)],
    latest: &[Vec<u32>],
    heard: &mut Vec<u32>,
    act: u32,
    lane: usize,
    told: &mut [bool],
    draft: &mut Vec<Instruction>,
) -> Result<(), NoMemory>
    requires once { AreOnce dealt.now (length told.old) }
    requires places { HavePlaces dealt.now latest.now act }
    requires heard { AreHeard (length latest.now) dealt.now draft.old.items heard.old.items }
    ensures written { OnOk result (IsNewsWritten dealt.now latest.now heard.old.items act lane draft.old.items draft.new.items told.old told.new) }
    ensures heard { OnOk result (AreHeard (length latest.now) dealt.now draft.new.items heard.new.items) }
{
    'turns: loop {
        match next_news(dealt, latest, heard, act, lane) {
            None => return Ok(()),
            Some((other, action)) => {
                let place = place_at(dealt, latest, other, act);
                draft.push(Instruction::Await { action })?;
                told[action as usize] = true;
                heard[other] = place;
            }
        }
    }
}
