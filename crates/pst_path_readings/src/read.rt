//! Paths.
ghost use Rattle.std.specs.Prelude.{◌≡◌, IfOk};
ghost use Rattle.pst_ast.specs.ExpressionView.{view_path};
ghost use Rattle.pst_numbering.specs.Kept.{view_reading};
ghost use Rattle.pst_terms.specs.Readings as tree;
ghost use Rattle.pst_path_readings.specs.Set.{view_setting};
ghost use Rattle.pst_sources.specs.Shown.{sources_of};

use crate::named::item_reading;
use crate::own::checked_reading;
use crate::setting::Setting;
use pst_ast::{PathNode, PathPart};
use pst_base::NoMemory;
use pst_index::{PathFor, read_path};
use pst_name_rules::item_by;
use pst_numbering::{PathReader, PathReading};
use pst_sources::Sources;
use pst_walk_parts::path_parts::{part_of, parts_of};

/// Says what the paths of the expressions stand for that stand somewhere.
#[derive(Clone, Copy)]
pub struct Reader<'a> {
    /// The sources.
    pub sources: &'a Sources<'a>,
    /// Where the expressions stand.
    pub setting: &'a Setting<'a>,
}

// Names with dots between them.
fn dotted_reading(
    sources: &Sources<'_>,
    setting: &Setting<'_>,
    first: PathPart,
    rest: &[PathPart],
) -> Result<PathReading, NoMemory>
    ensures { IfOk result (λ r. view_reading r ≡ tree.dotted_reading (sources_of sources.now) (view_setting setting.now) first rest.now) }
{
    let known = sources.known();
    let checked = read_path(
        known.alloc(),
        known.index(),
        known.names(),
        &setting.at,
        PathFor::Value,
        first,
        rest,
    )?;
    checked_reading(sources, setting, first.name, &checked)
}

/// What a path of an expression stands for.
#[tactic(auto, unfolding(pst_terms::specs::Readings::reading_of))]
pub fn reading_of(
    sources: &Sources<'_>,
    setting: &Setting<'_>,
    path: &PathNode,
) -> Result<PathReading, NoMemory>
    ensures { IfOk result (λ r. view_reading r ≡ tree.reading_of (sources_of sources.now) (view_setting setting.now) (view_path path.now)) }
{
    match path {
        PathNode::Dotted { first, rest } => {
            let parts = parts_of(sources.known().alloc(), rest.as_slice())?;
            dotted_reading(sources, setting, part_of(first), parts.as_slice())
        }
        PathNode::Item { first, second, .. } => {
            let component = setting.at.component;
            let item = item_by(sources.known().index(), component, None, *first, *second);
            Ok(item_reading(sources, item))
        }
        PathNode::LongItem {
            first,
            second,
            third,
            ..
        } => {
            let component = setting.at.component;
            let index = sources.known().index();
            let item = item_by(index, component, Some(*first), *second, *third);
            Ok(item_reading(sources, item))
        }
    }
}

impl<'a> PathReader for Reader<'a> {
    ghost reads = { λ r path. tree.reading_of (sources_of r.sources.now) (view_setting r.setting.now) path };

    fn read(&self, path: &PathNode) -> Result<PathReading, NoMemory> {
        reading_of(self.sources, self.setting, path)
    }
}
