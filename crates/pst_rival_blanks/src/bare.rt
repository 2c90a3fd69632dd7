//! Whether anything is filled in yet.
ghost use Rattle.std.specs.Prelude.{◌≡◌, [], All, true};
ghost use Rattle.pst_scen.specs.declared.act.Filled.{Filled as TheFilled};
ghost use Rattle.pst_blank_values.specs.Values.{IsBareAct, AreBare};

use pst_scen::{Act, Filled};

// Whether no reference has a value.
fn are_unfilled(references: &[Filled]) -> bool
    ensures { result ≡ true → All (λ (f : TheFilled). f.values ≡ []) references.now }
{
    for filled in references {
        if !filled.values.as_slice().is_empty() {
            return false;
        }
    }
    true
}

// Whether nothing of an action is filled in.
fn is_bare(act: &Act) -> bool
    ensures { result ≡ true → IsBareAct act.now }
{
    act.fields.as_slice().is_empty()
        && act.claims.as_slice().is_empty()
        && are_unfilled(act.references.as_slice())
}

/// Whether nothing of actions is filled in.
pub(crate) fn are_bare(acts: &[Act]) -> bool
    ensures { result ≡ true → AreBare acts.now }
{
    for act in acts {
        if !is_bare(act) {
            return false;
        }
    }
    true
}
