//! Whether a need is left that no action serves.
ghost use Rattle.std.specs.Prelude.{◌≡◌, ◌↔◌, IsTrue, count_by};
ghost use Rattle.std.specs.List.{list_any};
ghost use Rattle.std.specs.Option.{is_none};
ghost use Rattle.pst_legal.specs.SupplyReading as supply;
ghost use Rattle.pst_open_needs.specs.Needs as spec;

use pst_pool_sources::is_source_for;
use pst_scen::{Act, Filled, Flow, Link, Scenario};

// Whether a need of that kind must have a reference of another action as its source.
fn needs_another(flow: Flow) -> bool
    ensures { result ≡ spec.needs_another flow }
{
    match flow {
        Flow::BufferIn => true,
        Flow::StreamIn => true,
        Flow::StreamOut => true,
        _ => false,
    }
}

// Whether the source isn't read.
fn is_open(link: Link) -> bool
    ensures { result ≡ spec.is_open link }
{
    match link {
        Link::Nothing => true,
        _ => false,
    }
}

// Whether the one reference fits the other as its source.
fn fits(need: &Filled, source: &Filled) -> bool
    ensures { result ≡ supply.fits need.now source.now }
{
    is_source_for(need.flow, source.flow) && source.pool == need.pool
}

// Whether one of the references fits.
fn some_fits(references: &[Filled], need: &Filled) -> bool
    ensures { result ≡ list_any (supply.fits need.now) references.now }
{
    references.iter().any(|source| fits(need, source))
}

// Whether a reference of the action fits.
fn serves(act: &Act, need: &Filled) -> bool
    ensures { result ≡ spec.serves need.now act.now }
{
    some_fits(act.references.as_slice(), need)
}

// Whether a reference of some action fits.
fn is_served(acts: &[Act], need: &Filled) -> bool
    ensures { result ≡ spec.is_served acts.now need.now }
{
    acts.iter().any(|act| serves(act, need))
}

// Whether the need isn't linked, and must have a source that no reference is.
fn is_unserved(acts: &[Act], need: &Filled) -> bool
    ensures { result ≡ spec.is_unserved acts.now need.now }
{
    needs_another(need.flow) && (is_open(need.link) && !is_served(acts, need))
}

// Whether one of the references is such a need.
fn some_unserved(acts: &[Act], references: &[Filled]) -> bool
    ensures { result ≡ list_any (spec.is_unserved acts.now) references.now }
{
    references.iter().any(|need| is_unserved(acts, need))
}

// Whether the action has such a need.
fn lacks_source(acts: &[Act], act: &Act) -> bool
    ensures { result ≡ spec.lacks_source acts.now act.now }
{
    some_unserved(acts, act.references.as_slice())
}

// Whether some action has such a need.
fn some_lack(acts: &[Act]) -> bool
    ensures { result ≡ list_any (spec.lacks_source acts.now) acts.now }
{
    acts.iter().any(|act| lacks_source(acts, act))
}

// How many of the actions have no leaf.
fn inferred_of(acts: &[Act]) -> usize
    ensures { result ≡ count_by (λ act. is_none act.node) acts.now }
{
    acts.iter().filter(|act| act.node.is_none()).count()
}

/// Whether as many actions are inferred as the level of the scenario says, and an action has a need that isn't linked
/// and that no reference fits. The first object of a state pool serves all needs of states.
pub fn has_unserved_need(scenario: &Scenario) -> bool
    ensures { IsTrue result ↔ spec.IsLacking scenario.now }
{
    let acts = scenario.actions.as_slice();
    if (inferred_of(acts) as u64) < u64::from(scenario.level) {
        return false;
    }
    some_lack(acts)
}
