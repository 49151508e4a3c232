//! A gate that counts, and holds threads until others have come so far.
ghost use Rattle.std.specs.Prelude.{◌<◌};

use std::hint::spin_loop;
use std::sync::atomic::AtomicU64;
use std::sync::atomic::Ordering::SeqCst;
use ttp_base::Gate;

// A hold lasts no longer.
const TURNS: u64 = 10_000_000;

/// A thread that passes a place that was passed so often before is held, until another place was passed so often.
#[derive(Clone, Copy)]
pub(crate) struct Hold {
    pub(crate) place: u32,
    pub(crate) before: u64,
    pub(crate) other: u32,
    pub(crate) until: u64,
}

/// Holds nobody: there is no place 0.
pub(crate) const NOBODY: Hold = Hold {
    place: 0,
    before: 0,
    other: 0,
    until: 0,
};

/// No holds.
pub(crate) const OPEN: [Hold; 3] = [NOBODY, NOBODY, NOBODY];

/// Counts the passes of places 1 to 6, and holds threads at some of them.
#[derive(Drop)]
pub(crate) struct Beside {
    // Those of each place stand at its number.
    passes: [AtomicU64; 7],
    holds: [Hold; 3],
    // How many were held, and how many of these to the end.
    held: AtomicU64,
    in_vain: AtomicU64,
}

// Where the passes of a place stand; those of what is none stand at 0.
fn index_of(place: u32) -> usize
    ensures { result < 7 }
{
    if place < 7 { place as usize } else { 0 }
}

impl Beside {
    /// The gate with these holds.
    pub(crate) fn new(holds: [Hold; 3]) -> Beside {
        Beside {
            passes: [
                AtomicU64::new(0),
                AtomicU64::new(0),
                AtomicU64::new(0),
                AtomicU64::new(0),
                AtomicU64::new(0),
                AtomicU64::new(0),
                AtomicU64::new(0),
            ],
            holds,
            held: AtomicU64::new(0),
            in_vain: AtomicU64::new(0),
        }
    }

    /// Whether each place was passed so often.
    pub(crate) fn has_passed(&self, due: &[u64; 7]) -> bool {
        for k in 0..7 {
            if self.passes[k].load(SeqCst) != due[k] {
                return false;
            }
        }
        true
    }

    /// Whether so many threads were held, none of them to the end.
    pub(crate) fn has_held(&self, due: u64) -> bool {
        self.held.load(SeqCst) == due && self.in_vain.load(SeqCst) == 0
    }

    fn hold(&self, hold: &Hold) {
        self.held.fetch_add(1, SeqCst);
        for _ in 0..TURNS {
            if self.passes[index_of(hold.other)].load(SeqCst) >= hold.until {
                return;
            }
            spin_loop();
        }
        self.in_vain.fetch_add(1, SeqCst);
    }
}

impl Gate for Beside {
    fn pass(&self, place: u32) {
        let before = self.passes[index_of(place)].fetch_add(1, SeqCst);
        for hold in &self.holds {
            if hold.place == place && hold.before == before {
                self.hold(hold);
            }
        }
    }
}
