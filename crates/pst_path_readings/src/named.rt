//! Names without dots.
ghost use Rattle.std.specs.Prelude.{◌≡◌, IfOk};
ghost use Rattle.pst_model.specs.ConstraintTree.{Local};
ghost use Rattle.pst_tree.specs.Bases;
ghost use Rattle.pst_numbering.specs.Kept.{view_reading};
ghost use Rattle.pst_terms.specs.Readings as tree;
ghost use Rattle.pst_terms.specs.Terms.{AThing};
ghost use Rattle.pst_path_readings.specs.Set.{turn_is, view_setting};
ghost use Rattle.pst_path_readings.specs.Wrapped.{wrapped};
ghost use Rattle.pst_sources.specs.Shown.{sources_of};

use crate::fields::{FieldOf, field_reading};
use crate::setting::{Setting, Turn};
use crate::wrap::{Wrap, nothing};
use pst_ast::{Declaration, Referent, Sort};
use pst_base::NoMemory;
use pst_numbering::{OwnSlot, PathReading};
use pst_sources::Sources;
use pst_type_members::number_in;

/// An enum item.
pub fn item_reading(sources: &Sources<'_>, item: Option<Declaration>) -> PathReading
    ensures { view_reading result ≡ tree.item_reading (sources_of sources.now) item }
{
    match item {
        None => nothing(),
        Some(item) => match sources.item_value(item.name.place) {
            None => nothing(),
            Some(value) => PathReading::Number(value),
        },
    }
}

// A local.
fn local_reading(
    wrap: Wrap,
    locals: &[Declaration],
    local: &Declaration,
) -> Result<PathReading, NoMemory>
    ensures { IfOk result (λ r. view_reading r ≡ tree.map_reading (wrapped wrap) (AThing (Local (Bases.number_in locals.now local.now)))) }
{
    match u32::try_from(number_in(locals, local)) {
        Ok(local) => Ok(wrap.slot(OwnSlot::Local { local })),
        Err(_) => Err(NoMemory),
    }
}

// An index.
fn turn_reading(wrap: Wrap, turn: Option<Turn>) -> PathReading
    ensures { view_reading result ≡ tree.map_reading (wrapped wrap) (turn_is turn) }
{
    match turn {
        None => nothing(),
        Some(Turn::AtLevel(level)) => wrap.slot(OwnSlot::Index { level }),
        Some(Turn::AtNumber(number)) => PathReading::Number(i64::from(number)),
    }
}

// What is declared.
#[tactic(auto, using(crate::proofs::Turning::turn_of_index))]
fn declared_reading(
    sources: &Sources<'_>,
    wrap: Wrap,
    setting: &Setting<'_>,
    owner: &Declaration,
    declared: &Declaration,
) -> Result<PathReading, NoMemory>
    ensures { IfOk result (λ r. view_reading r ≡ tree.map_reading (wrapped wrap) (tree.declared_reading (sources_of sources.now) (view_setting setting.now) owner.now declared.now declared.now.sort)) }
{
    match declared.sort {
        Sort::Field { .. } => field_reading(sources, wrap, FieldOf::Itself, owner, declared),
        Sort::Item { .. } => Ok(item_reading(sources, Some(*declared))),
        Sort::Local => local_reading(wrap, setting.locals, declared),
        Sort::Index => Ok(turn_reading(wrap, setting.turn_at(declared.name.place))),
        _ => Ok(nothing()),
    }
}

/// A name by itself.
pub fn name_reading(
    sources: &Sources<'_>,
    wrap: Wrap,
    setting: &Setting<'_>,
    owner: &Declaration,
    referent: &Referent,
) -> Result<PathReading, NoMemory>
    ensures { IfOk result (λ r. view_reading r ≡ tree.map_reading (wrapped wrap) (tree.name_reading (sources_of sources.now) (view_setting setting.now) owner.now referent.now)) }
{
    match referent {
        Referent::Declared(declared) => declared_reading(sources, wrap, setting, owner, declared),
        Referent::Initial(_) => Ok(wrap.slot(OwnSlot::IsFirst)),
        Referent::Number(_) => Ok(wrap.slot(OwnSlot::Id)),
        Referent::Previous(_) => Ok(nothing()),
    }
}
