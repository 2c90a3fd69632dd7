//! Linking a need to a source, and taking the link back.
ghost use Rattle.std.specs.Prelude.{◌≡◌, IfOk, OnErr, IsTrue};
ghost use Rattle.pst_model.specs.ModelTree.{ModelTree};
ghost use Rattle.pst_model.specs.ModelView.{view_model};
ghost use Rattle.pst_model.specs.Served.{IsInOrder};
ghost use Rattle.pst_scen.specs.declared.act.Link.TheVariants as link;
ghost use Rattle.pst_legal.specs.SupplyReading.{Initially, From, New, alter, with_link, put_link};
ghost use Rattle.pst_open_ends.specs.Spots.{read_spot, given_source};
ghost use Rattle.pst_open_ends.specs.Beyond.{AreNew};
ghost use Rattle.pst_open_ends.specs.Changes.{Unlinks, unlinked, Joins, lowest_of, undone, Supplies};

use crate::acts::open_act;
use crate::beyond::NewSources;
use crate::flows::is_stream;
use crate::spot::{Source, Spot};
use pst_base::{Items, NoMemory};
use pst_model::Model;
use pst_scen::{Act, Filled, Link};
use std::alloc::Global;
use std::mem;

/// A reference whose link was changed, and what it was linked to before.
#[derive(Clone, Copy, Debug, PartialEq, Eq)]
pub struct Relinked {
    /// The action.
    pub act: usize,
    /// The reference.
    pub reference: usize,
    /// The link before.
    pub was: Link,
}

/// The ends that a source links.
#[derive(Clone, Copy, Debug, PartialEq, Eq)]
pub struct Ends {
    /// The need.
    pub need: Relinked,
    /// The other end of a stream.
    pub far: Option<Relinked>,
}

/// What a source did to the actions.
#[derive(Clone, Copy, Debug, PartialEq, Eq)]
pub struct Change {
    /// The ends that were linked.
    pub ends: Ends,
    /// How many actions there were before.
    pub count: usize,
    /// No action below that number was changed.
    pub lowest: usize,
}

// The number, where it fits 32 bits.
fn narrow(number: usize) -> Result<u32, NoMemory>
    ensures { IfOk result (λ n. n ≡ number) }
{
    match u32::try_from(number) {
        Ok(number) => Ok(number),
        Err(_) => Err(NoMemory),
    }
}

// The link to a reference.
fn link_to(act: usize, reference: usize) -> Result<Link, NoMemory>
    ensures { IfOk result (λ to. to ≡ link.Act act reference) }
{
    Ok(Link::Act {
        act: narrow(act)?,
        reference: narrow(reference)?,
    })
}

// Links the reference of that number among those of an action. Gives what it was linked to.
fn put_at(references: &mut Vec<Filled>, reference: usize, to: Link) -> Link
    ensures put { references.new.items ≡ alter (with_link to) reference references.old.items }
    ensures back { references.old.items ≡ alter (with_link result) reference references.new.items }
{
    if reference >= references.len() {
        return Link::Nothing;
    }
    let was = references[reference].link;
    references[reference].link = to;
    was
}

fn put_in(alloc: Global, references: &mut Items<Filled>, reference: usize, to: Link) -> Link
    ensures put { references.new ≡ alter (with_link to) reference references.old }
    ensures back { references.old ≡ alter (with_link result) reference references.new }
{
    let mut items = mem::replace(references, Items::empty(alloc)).into_vec();
    let was = put_at(&mut items, reference, to);
    *references = Items::from_vec(items);
    was
}

// Links a reference of an action. Gives what it was linked to.
fn put(alloc: Global, acts: &mut Vec<Act>, act: usize, reference: usize, to: Link) -> Relinked
    ensures put { acts.new.items ≡ put_link act reference to acts.old.items }
    ensures back { Unlinks result acts.new.items acts.old.items }
    ensures act { result.act ≡ act }
{
    if act >= acts.len() {
        return Relinked {
            act,
            reference,
            was: Link::Nothing,
        };
    }
    let was = put_in(alloc, &mut acts[act].references, reference, to);
    Relinked {
        act,
        reference,
        was,
    }
}

// Takes a link back.
fn unlink(alloc: Global, acts: &mut Vec<Act>, end: Relinked)
    ensures { acts.new.items ≡ unlinked end acts.old.items }
{
    put(alloc, acts, end.act, end.reference, end.was);
}

// Links a need to a reference, and with a stream the reference to the need. Gives what the ends were
// linked to.
fn join(
    alloc: Global,
    acts: &mut Vec<Act>,
    need: &Spot,
    act: usize,
    reference: usize,
) -> Result<Ends, NoMemory>
    ensures joined { IfOk result (λ ends. Joins (read_spot need.now) act reference ends acts.old.items acts.new.items) }
    ensures err { OnErr result (acts.new.items ≡ acts.old.items) }
{
    let to = link_to(act, reference)?;
    let back = link_to(need.act, need.reference)?;
    let end = put(alloc, acts, need.act, need.reference, to);
    if !is_stream(need.flow) {
        return Ok(Ends {
            need: end,
            far: None,
        });
    }
    let far = put(alloc, acts, act, reference, back);
    Ok(Ends {
        need: end,
        far: Some(far),
    })
}

// The lower of the actions at both ends of a stream, and else that of the need.
fn lowest(need: &Spot, act: usize) -> usize
    ensures { result ≡ lowest_of (read_spot need.now) act }
{
    if is_stream(need.flow) && act < need.act {
        return act;
    }
    need.act
}

// Links a need to the first object of its pool.
fn supply_first(alloc: Global, acts: &mut Vec<Act>, need: &Spot) -> Change
    ensures { (m : ModelTree) → Supplies m (read_spot need.now) Initially result acts.old.items acts.new.items }
{
    let count = acts.len();
    let end = put(alloc, acts, need.act, need.reference, Link::Initial);
    Change {
        ends: Ends {
            need: end,
            far: None,
        },
        count,
        lowest: need.act,
    }
}

// Links a need to a reference of an action that there is.
fn supply_old(
    alloc: Global,
    acts: &mut Vec<Act>,
    need: &Spot,
    act: usize,
    reference: usize,
) -> Result<Change, NoMemory>
    ensures supplied { (m : ModelTree) → IfOk result (λ change. Supplies m (read_spot need.now) (From act reference) change acts.old.items acts.new.items) }
    ensures err { OnErr result (acts.new.items ≡ acts.old.items) }
{
    let count = acts.len();
    let ends = join(alloc, acts, need, act, reference)?;
    Ok(Change {
        ends,
        count,
        lowest: lowest(need, act),
    })
}

// Links a need to a reference of a new action.
fn supply_new(
    alloc: Global,
    model: &Model,
    in_order: bool,
    acts: &mut Vec<Act>,
    need: &Spot,
    action: usize,
    instance: usize,
    reference: usize,
) -> Result<Change, NoMemory>
    requires { IsTrue in_order → IsInOrder (view_model model.now).served }
    ensures supplied { IfOk result (λ change. Supplies (view_model model.now) (read_spot need.now) (New action instance reference) change acts.old.items acts.new.items) }
    ensures err { OnErr result (acts.new.items ≡ acts.old.items) }
{
    let count = acts.len();
    let act = open_act(
        alloc,
        model,
        in_order,
        narrow(action)?,
        narrow(instance)?,
        None,
    )?;
    acts.push(act)?;
    match join(alloc, acts, need, count, reference) {
        Ok(ends) => Ok(Change {
            ends,
            count,
            lowest: count.min(need.act),
        }),
        Err(error) => {
            acts.truncate(count);
            Err(error)
        }
    }
}

/// Links a need to a source. Gives what was changed.
pub fn supply(
    alloc: Global,
    beyond: &NewSources<'_>,
    acts: &mut Vec<Act>,
    need: &Spot,
    source: Source,
) -> Result<Change, NoMemory>
    requires { AreNew beyond.now }
    ensures supplied { IfOk result (λ change. Supplies (view_model beyond.now.model.now) (read_spot need.now) (given_source source) change acts.old.items acts.new.items) }
    ensures err { OnErr result (acts.new.items ≡ acts.old.items) }
{
    match source {
        Source::Initially => Ok(supply_first(alloc, acts, need)),
        Source::From { act, reference } => supply_old(alloc, acts, need, act, reference),
        Source::New {
            action,
            instance,
            reference,
        } => supply_new(
            alloc,
            beyond.model,
            beyond.in_order,
            acts,
            need,
            action,
            instance,
            reference,
        ),
    }
}

/// Takes a source back.
pub fn take_back(alloc: Global, acts: &mut Vec<Act>, change: &Change)
    ensures { acts.new.items ≡ undone change.now acts.old.items }
{
    if let Some(far) = change.ends.far {
        unlink(alloc, acts, far);
    }
    unlink(alloc, acts, change.ends.need);
    acts.truncate(change.count);
}
