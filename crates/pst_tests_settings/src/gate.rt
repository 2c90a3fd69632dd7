//! A gate at which lanes meet.
use pst_target::Gate;
use std::sync::atomic::{AtomicU64, Ordering};

/// How often a lane looks whether the others have come, before it gives up.
const TURNS: u32 = 100_000_000;

/// A gate in which some lanes turn until others have entered it, each at most 100,000,000 times. It
/// notes whether one reached that limit. Lanes are the bits of a number.
#[derive(Drop)]
pub struct Meeting {
    waiting: u64,
    awaited: u64,
    entered: AtomicU64,
    missed: AtomicU64,
}

impl Meeting {
    /// The lanes of `waiting` turn until those of `awaited` have entered.
    pub fn new(waiting: u64, awaited: u64) -> Meeting {
        Meeting {
            waiting,
            awaited,
            entered: AtomicU64::new(0),
            missed: AtomicU64::new(0),
        }
    }

    /// Whether all that waited met those that they waited for.
    pub fn was_kept(&self) -> bool {
        self.missed.load(Ordering::SeqCst) == 0
    }

    // Whether all that are awaited have entered.
    fn have_come(&self) -> bool {
        self.entered.load(Ordering::SeqCst) & self.awaited == self.awaited
    }
}

impl Gate for Meeting {
    fn pass(&self, lane: u32) {
        let own = 1u64.wrapping_shl(lane);
        self.entered.fetch_or(own, Ordering::SeqCst);
        if self.waiting & own == 0 {
            return;
        }
        for _ in 0..TURNS {
            if self.have_come() {
                return;
            }
        }
        self.missed.fetch_add(1, Ordering::SeqCst);
    }
}
