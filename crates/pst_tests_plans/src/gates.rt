//! Gates that hold lanes back.
use pst_target::Gate;
use std::sync::atomic::{AtomicU64, Ordering};
use std::thread;

/// How often a lane looks whether the others have come before it gives up.
const MOST_TURNS: u32 = 100_000_000;

/// A gate at which each lane waits until so many have come. It notes where one gave up.
#[derive(Drop)]
pub struct Meeting {
    lanes: u64,
    came: AtomicU64,
    gave_up: AtomicU64,
}

impl Meeting {
    /// The gate of so many lanes.
    pub fn new(lanes: u32) -> Meeting {
        Meeting {
            lanes: u64::from(lanes),
            came: AtomicU64::new(0),
            gave_up: AtomicU64::new(0),
        }
    }

    /// Whether all came in time.
    pub fn met(&self) -> bool {
        self.gave_up.load(Ordering::SeqCst) == 0
    }
}

impl Gate for Meeting {
    fn pass(&self, _lane: u32) {
        self.came.fetch_add(1, Ordering::SeqCst);
        for _ in 0..MOST_TURNS {
            if self.came.load(Ordering::SeqCst) >= self.lanes {
                return;
            }
            thread::yield_now();
        }
        self.gave_up.store(1, Ordering::SeqCst);
    }
}
