//! Gates that a worker passes before it checks a target. A gate only holds a worker back for a
//! while, and no contract can know what a word that threads share holds: a test shows what `met` says.
ghost use Rattle.std.specs.Prelude.{◌≡◌};

use std::hint::spin_loop;
use std::sync::atomic::{AtomicU64, Ordering};

/// What a worker calls before each check.
pub trait Gate: Sync {
    /// The worker of this number is about to check this target. The call comes back.
    fn enter(&self, worker: u32, target: u32);
}

/// A gate that holds nobody.
#[derive(Drop)]
pub struct FreeGate;

impl Gate for FreeGate {
    fn enter(&self, _worker: u32, _target: u32) {}
}

const NOBODY: u64 = 0;

const ONE_HELD: u64 = 1;

const MET: u64 = 2;

const SPENT: u64 = 3;

/// A gate that holds the first worker until a second has entered, or until it has looked `turns`
/// times in vain. Then all pass.
#[derive(Drop)]
pub struct MeetGate {
    phase: AtomicU64,
    turns: u64,
}

impl MeetGate {
    /// A gate that nobody has entered.
    pub fn new(turns: u64) -> MeetGate
        ensures { result.turns ≡ turns }
    {
        MeetGate {
            phase: AtomicU64::new(NOBODY),
            turns,
        }
    }

    /// Whether a second worker entered while the first was held.
    pub fn met(&self) -> bool {
        self.phase.load(Ordering::SeqCst) == MET
    }

    // The phase becomes the other, where it is the one.
    fn moves(&self, from: u64, to: u64) -> bool {
        self.phase
            .compare_exchange(from, to, Ordering::SeqCst, Ordering::SeqCst)
            .is_ok()
    }

    fn hold(&self) {
        for _turn in 0..self.turns {
            if self.phase.load(Ordering::SeqCst) != ONE_HELD {
                return;
            }
            spin_loop();
        }
        let _ = self.moves(ONE_HELD, SPENT);
    }
}

impl Gate for MeetGate {
    fn enter(&self, _worker: u32, _target: u32) {
        if self.moves(NOBODY, ONE_HELD) {
            self.hold();
        } else {
            let _ = self.moves(ONE_HELD, MET);
        }
    }
}
