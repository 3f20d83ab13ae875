// A gate where two workers meet.

use sect_edge::Gate;
use std::sync::Wait;
use std::sync::atomic::{AtomicU64, Ordering};
use std::thread;

/// Holds worker 0 at its first step until worker 1 came to its second, and worker 1 at its first until worker 0 came to its.
#[derive(Drop)]
pub struct Meeting {
    first: AtomicU64,
    second: AtomicU64,
    late: AtomicU64,
}

impl Meeting {
    /// A gate to which nobody came yet.
    pub fn new() -> Meeting {
        Meeting {
            first: AtomicU64::new(0),
            second: AtomicU64::new(0),
            late: AtomicU64::new(0),
        }
    }

    /// Whether a worker was let pass before the other one came.
    pub fn was_late(&self) -> bool {
        self.late.load(Ordering::SeqCst) != 0
    }

    /// Waits a while until the other worker came to this step.
    fn hold(&self, other: &AtomicU64, until: u64) {
        for _ in 0..1_000_000u64 {
            if other.load(Ordering::SeqCst) >= until {
                return;
            }
            thread::yield_now();
        }
        self.late.fetch_add(1, Ordering::SeqCst);
    }
}

impl Gate for Meeting {
    fn pass<R: Wait>(&self, _rt: &R, worker: u32, step: u64) {
        let (own, other) = if worker == 0 {
            (&self.first, &self.second)
        } else {
            (&self.second, &self.first)
        };
        own.store(step.saturating_add(1), Ordering::SeqCst);
        if step == 0 {
            let until = if worker == 0 { 2 } else { 1 };
            self.hold(other, until);
        }
    }
}
