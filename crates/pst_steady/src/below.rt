//! Whether all that is derived from an action traverses a handle exactly once.
ghost use Rattle.std.specs.Prelude.{◌≡◌, IsTrue, map};
ghost use Rattle.pst_ast.specs.DeclarationView.{view_unit};
ghost use Rattle.pst_ast.specs.Declarations.{declarations as the_declarations};
ghost use Rattle.pst_type_rules.specs.Handles.{IsSteadyIn};
ghost use Rattle.pst_steady.specs.Lined.{HasUnsteady};
ghost use Rattle.pst_steady.specs.Derived.{AreBelow};

use crate::lineage::Lineage;
use crate::number::number_of;
use crate::ranges::Range;
use crate::runs::{RunKey, are_once};
use pst_ast::Declaration;
use pst_base::NameId;
use pst_sites::Sites;
use std::collections::HashMap;

/// What is known of the activities of all that is derived from each declaration.
#[derive(Clone, Copy)]
pub struct Below<'a> {
    /// For each declaration the numbers of the activities and bodies of it and of all that is derived
    /// from it.
    pub ranges: &'a [Range],
    /// For each of these numbers that of the action with the activity; none for a body.
    pub slots: &'a [Option<usize>],
    /// Where the activities from one on end that traverse a handle exactly once.
    pub runs: &'a HashMap<RunKey, usize>,
    /// Whether the numbers were looked at and are right.
    pub right: bool,
}

/// Whether it is known that with an action all those that are derived from it have an activity that
/// traverses a handle exactly once, and not within a `select`, `repeat`, `if` or `match`. It takes
/// expected constant time. Where no two names are declared at one place, it is known of all for which
/// it is so; no contract says that.
pub fn none_unsteady(
    sites: &Sites,
    lineage: &Lineage,
    below: &Below,
    action: &Declaration,
    handle: NameId,
) -> bool
    requires declared { lineage.now.index.now ≡ the_declarations (map view_unit sites.now) }
    requires below { AreBelow (map view_unit sites.now) lineage.now.places.now lineage.now.bases.now lineage.now.values.now lineage.now.tallies.now below.now }
    ensures { IsTrue result → IsSteadyIn (map view_unit sites.now) action.now handle → HasUnsteady (map view_unit sites.now) action.now handle → ⊥ }
{
    if !below.right {
        return false;
    }
    let Some(number) = number_of(lineage.places, lineage.index.as_slice(), action) else {
        return false;
    };
    match below.ranges.get(number) {
        None => false,
        Some(range) => are_once(below.runs, lineage.tallies, below.slots, *range, handle),
    }
}
