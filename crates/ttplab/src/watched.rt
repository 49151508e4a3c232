//! Output of a campaign, or of pairs of faults: whole slots, or first faults, are handed on, and how far it has come is told on
//! standard error.
ghost use Rattle.std.specs.Prelude.{◌≤◌, length, IfOk};

use std::io::{self, Eprint, Write};
use std::time::{Clock, Instant};

// For so many seconds nothing is told.
const QUIET_SECONDS: u64 = 5;

/// A writer that hands each write on to another. It reads off the lines of a campaign, or of pairs, how far that has come. Once the
/// lines of a slot are written, or those of a first fault with its pairs, it has the other writer hand on what it holds, and says on
/// standard error how many slots are done, each time that another hundredth of them is. Nothing of what is written depends on it.
#[derive(Drop)]
pub(crate) struct WatchedOutput<'a, R, W> {
    rt: &'a R,
    pub(crate) out: W,
    // Whether the command is one that says how far it has come. The lines of others are not looked at.
    is_watched: bool,
    progress: Progress,
}

/// How far a campaign has come.
#[derive(Drop)]
struct Progress {
    // When the program began, if the system has a clock.
    began: Option<Instant>,
    // How many slots the script has, once a campaign has begun, and whether it is one of pairs.
    slots: Option<u32>,
    has_pairs: bool,
    // The first slot of which faults are tried, and how many slots these are.
    first: u32,
    count: u32,
    // The slot whose lines are being written.
    slot: Option<u32>,
    // The hundredth that was reached last.
    reached: u64,
}

impl<'a, R: Clock, W> WatchedOutput<'a, R, W> {
    /// Over a writer, of which nothing is known so far; `is_watched` says whether the command is `campaign` or `pairs`.
    pub(crate) fn new(rt: &'a R, out: W, is_watched: bool) -> WatchedOutput<'a, R, W> {
        WatchedOutput {
            rt,
            out,
            is_watched,
            progress: Progress {
                began: Instant::now(rt).ok(),
                slots: None,
                has_pairs: false,
                first: 0,
                count: 0,
                slot: None,
                reached: 0,
            },
        }
    }
}

impl<R: Eprint, W> WatchedOutput<'_, R, W> {
    /// Says of a campaign that was written whether it tried no fault.
    pub(crate) fn tell_nothing_tried(&self) {
        if let (Some(slots), None) = (self.progress.slots, self.progress.slot) {
            let last = slots.saturating_sub(1);
            let _ = eprintln!(self.rt;
                "ttplab: no fault was tried: the script has slots 0 to {last}"
            );
        }
    }
}

impl<R: Eprint + Clock, W: Write> Write for WatchedOutput<'_, R, W> {
    #[inline]
    fn write(&mut self, piece: &[u8]) -> io::Result<usize> {
        if self.is_watched {
            self.write_watched(piece)
        } else {
            self.out.write(piece)
        }
    }

    fn flush(&mut self) -> io::Result<()> {
        self.out.flush()
    }
}

impl<R: Eprint + Clock, W: Write> WatchedOutput<'_, R, W> {
    // Hands a write on, and reads off it how far the command has come.
    fn write_watched(&mut self, piece: &[u8]) -> io::Result<usize>
        ensures { IfOk result (λ count. count ≤ length piece.now) }
    {
        if self.progress.ends_slot(piece) {
            self.out.flush()?;
            self.progress.tell(self.rt);
        }
        self.progress.take(piece);
        let written = self.out.write(piece)?;
        if self.progress.ends_pairs(piece) {
            self.out.flush()?;
        }
        Ok(written)
    }
}

// The number at the front of a text, and nothing where there is none.
fn number_in(word: Option<&str>) -> Option<u32> {
    word?.trim_end().parse::<u32>().ok()
}

// The slot of which a line tells.
fn slot_of(piece: &[u8]) -> Option<u32> {
    if !piece.starts_with(b"slot ") {
        return None;
    }
    match str::from_utf8(piece) {
        Ok(line) => number_in(line.split(' ').nth(1)),
        Err(_) => None,
    }
}

// So many seconds, roughly.
fn roughly(seconds: u64) -> (u64, &'static str) {
    if seconds < 120 {
        (seconds, "seconds")
    } else if seconds < 7200 {
        (seconds / 60, "minutes")
    } else {
        (seconds / 3600, "hours")
    }
}

impl Progress {
    // Whether the lines of a slot are written when this line comes.
    fn ends_slot(&self, piece: &[u8]) -> bool {
        match (self.slots, self.slot) {
            (Some(_), Some(slot)) => match slot_of(piece) {
                Some(next) => next != slot,
                None => piece.starts_with(b"kept ") || piece.starts_with(b"apart "),
            },
            _ => false,
        }
    }

    // Whether this is the line of a first fault, behind those of its pairs.
    fn ends_pairs(&self, piece: &[u8]) -> bool {
        self.has_pairs && slot_of(piece).is_some()
    }

    // Reads a line.
    fn take(&mut self, piece: &[u8]) {
        if self.slots.is_some() {
            if let Some(slot) = slot_of(piece) {
                self.slot = Some(slot);
            }
        } else if piece.starts_with(b"ttplab campaign ") || piece.starts_with(b"ttplab pairs ") {
            self.has_pairs = piece.starts_with(b"ttplab pairs ");
            if let Ok(line) = str::from_utf8(piece) {
                self.begin(line);
            }
        }
    }

    // Takes the range from the first line: `ttplab campaign 1 nodes N slots T from FIRST to LAST`, or that of `pairs`.
    fn begin(&mut self, line: &str) {
        let slots = number_in(line.split(' ').nth(6));
        let first = number_in(line.split(' ').nth(8));
        let last = number_in(line.split(' ').nth(10));
        if let (Some(slots), Some(first), Some(last)) = (slots, first, last) {
            self.slots = Some(slots);
            self.first = first;
            self.count = slots.min(last.saturating_add(1)).saturating_sub(first);
        }
    }

    // Says how many slots are done, where that is another hundredth of them and the campaign takes longer than a few seconds.
    fn tell<R: Eprint + Clock>(&mut self, rt: &R) {
        let count = u64::from(self.count);
        let done = u64::from(self.slot.unwrap_or(0).saturating_sub(self.first)) + 1;
        let reached = (100 * done).checked_div(count).unwrap_or(0);
        if reached <= self.reached {
            return;
        }
        self.reached = reached;
        let spent = self.seconds(rt);
        if spent < QUIET_SECONDS {
            return;
        }
        let left = spent
            .saturating_mul(count.saturating_sub(done))
            .checked_div(done);
        let (time, unit) = roughly(left.unwrap_or(0));
        // What can't be told is left out.
        let _ = eprintln!(rt; "ttplab: {done} of {count} slots, about {time} {unit} left");
    }

    // How many seconds the program has run.
    fn seconds<R: Clock>(&self, rt: &R) -> u64 {
        match self.began {
            Some(began) => match began.elapsed(rt) {
                Ok(time) => time.as_secs(),
                Err(_) => 0,
            },
            None => 0,
        }
    }
}
