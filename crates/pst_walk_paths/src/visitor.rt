//! What a walk over an expression shows of it.
ghost use Rattle.std.specs.Prelude.{◌≡◌, OnOk};
ghost use Rattle.pst_ast.specs.Uses.{Reads, TakesItem, Use};

use pst_ast::{Environment, Name, PathPart};
use pst_base::NoMemory;

/// Sees the paths in an expression one after another.
pub trait PathVisitor {
    /// What it becomes by a path, which is a use.
    ghost path_step: { Self → Use → Self };

    /// A path of names with dots between them.
    fn reads_path(
        &mut self,
        at: &Environment,
        first: PathPart,
        rest: &[PathPart],
    ) -> Result<(), NoMemory>
        ensures { OnOk result (self.new ≡ path_step self.old (Reads at.now first rest.now)) };

    /// An item behind the name of its enum, before which a component's may stand.
    fn takes_item_of(
        &mut self,
        at: &Environment,
        component: Option<Name>,
        enum_: Name,
        item: Name,
    ) -> Result<(), NoMemory>
        ensures { OnOk result (self.new ≡ path_step self.old (TakesItem at.now component enum_ item)) };
}
