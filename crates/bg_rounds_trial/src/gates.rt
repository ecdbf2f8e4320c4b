//! A gate that counts.
use bg_claims::Gate;
use std::alloc::{AllocError, Global};
use std::sync::atomic::{AtomicU64, Ordering};

/// Counts how often a check of each target began.
#[derive(Drop)]
pub struct CountGate {
    seen: Vec<AtomicU64>,
}

impl CountGate {
    /// A gate for `targets` targets.
    pub fn new(alloc: Global, targets: u32) -> Result<CountGate, AllocError> {
        let mut seen = Vec::new(alloc);
        for _ in 0..targets {
            seen.push(AtomicU64::new(0))?;
        }
        Ok(CountGate { seen })
    }

    /// How often checks began in all, and how often those of one target at most.
    pub fn counts(&self) -> (u64, u64) {
        let mut all: u64 = 0;
        let mut most: u64 = 0;
        for count in &self.seen {
            let count = count.load(Ordering::SeqCst);
            all = all.saturating_add(count);
            most = most.max(count);
        }
        (all, most)
    }
}

impl Gate for CountGate {
    fn enter(&self, _worker: u32, target: u32) {
        if let Some(count) = self.seen.get(target as usize) {
            count.fetch_add(1, Ordering::SeqCst);
        }
    }
}
