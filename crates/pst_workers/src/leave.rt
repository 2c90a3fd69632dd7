//! With what a worker leaves a run.
ghost use Rattle.std.specs.Prelude.{◌≡◌, ◌⊎◌, true};
ghost use Rattle.pst_scen.specs.Trace.{IsWhole};

use pst_desk::{Desk, Name};
use std::marker::{Model, PhantomData};

/// The leave of a worker: that it found a desk of this name from which nothing more comes, since it was stopped, or since every
/// action had ended. Nothing but such a desk gives one. Contracts see it as whether the desk was stopped.
#[derive(Drop)]
pub struct Leave<N: Name> {
    stopped: bool,
    name: PhantomData<N>,
}

impl<N: Name> Model for Leave<N> {
    ghost use Rattle.std.specs.Prelude.{Bool};

    ghost Value = { Bool };

    ghost view = { λ l. l.stopped };
}

impl<N: Name> Leave<N> {
    /// The leave that such a desk gives.
    pub(crate) fn of(desk: &Desk<'_, N>) -> Leave<N>
        requires { (desk.now.stopped ≡ true) ⊎ IsWhole N.scenario desk.now.trace }
        ensures { result ≡ desk.now.stopped }
    {
        Leave {
            stopped: desk.stopped(),
            name: PhantomData,
        }
    }
}
