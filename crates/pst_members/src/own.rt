//! An action's own members.
ghost use Rattle.std.specs.Prelude.{◌≡◌, ◌<◌, IfOk, slice_get};
ghost use Rattle.pst_members.specs.Found.{Keeps, count};
ghost use Rattle.pst_members.specs.Kept.{AreLinked, IsOver};

use crate::{Linked, Versions};
use pst_ast::{Declaration, Scope};
use pst_base::NoMemory;

/// The declaration at a position.
pub fn member_at(declarations: &[Declaration], position: u32) -> Option<Declaration>
    ensures { result ≡ slice_get declarations.now position }
{
    declarations.get(position as usize).copied()
}

/// A version that finds what a scope declares, and else what another version finds.
pub fn put_members(
    versions: &mut Versions,
    declarations: &[Declaration],
    linked: &Linked,
    scope: Scope,
    base: u32,
) -> Result<u32, NoMemory>
    requires linked { AreLinked declarations.now linked.now }
    requires there { base < count versions.old }
    ensures kept { Keeps versions.old versions.new }
    ensures over { IfOk result (λ added. IsOver declarations.now scope versions.old base versions.new added) }
{
    let mut version = base;
    let mut at = linked.last_of(scope);
    while let Some(position) = at {
        let Some(member) = member_at(declarations, position) else {
            break;
        };
        version = versions.with(version, member.name.id.0, position)?;
        at = linked.before(position);
    }
    Ok(version)
}
