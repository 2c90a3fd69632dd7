//! The settings of the texts of types.
ghost use Rattle.std.specs.Prelude.{◌≡◌};
ghost use Rattle.pst_elab_rules.specs.Types as tree;
ghost use Rattle.pst_path_readings.specs.Set.{view_setting};

use pst_ast::{Declaration, Environment, Inner, Owner};
use pst_path_readings::Setting;
use std::alloc::Global;

/// In the text of a type, outside of all repetitions and bodies.
pub fn setting_of<'a>(alloc: Global, type_: &Declaration, owner: Owner) -> Setting<'a>
    ensures { view_setting result ≡ tree.setting_of type_.now owner }
{
    Setting {
        at: Environment {
            component: type_.inside,
            owner,
            inner: Inner::new(alloc),
            traversal: None,
        },
        turns: Vec::new(alloc),
        locals: &[],
    }
}
