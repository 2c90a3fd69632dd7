//! Where the workers sleep.
use pst_post::MOST_LANES;
use std::array;
use std::sync::{Condvar, MutexGuard, Wait};

/// A condition variable for each lane, on which the worker of that lane sleeps, and no other.
#[derive(Drop)]
pub(crate) struct Signals {
    lanes: [Condvar; MOST_LANES],
}

impl Signals {
    /// Those of all lanes that there can be.
    pub(crate) fn new() -> Signals {
        Signals {
            lanes: array::from_fn(|_| Condvar::new()),
        }
    }

    /// Gives the lock back, sleeps until the lane is woken, and takes the lock again. It may wake by itself.
    pub(crate) fn wait<'b, R: Wait, T>(
        &self,
        rt: &R,
        lane: u32,
        guard: MutexGuard<'b, T>,
    ) -> MutexGuard<'b, T> {
        match self.lanes.get(lane as usize) {
            Some(signal) => signal.wait(rt, guard),
            None => guard,
        }
    }

    /// Wakes these lanes.
    pub(crate) fn wake(&self, lanes: &[bool; MOST_LANES]) {
        for (signal, wakes) in self.lanes.iter().zip(lanes.iter()) {
            if *wakes {
                signal.notify_one();
            }
        }
    }
}
