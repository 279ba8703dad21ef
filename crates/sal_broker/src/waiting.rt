//! How clients that look for a mark wait between two looks.
use std::sync::Wait;
use std::sync::atomic::AtomicU64;
use std::sync::atomic::Ordering::SeqCst;
use std::time::Duration;

// The first pauses are not sleeps, but this many looks at the length each, some 30 microseconds in all: often the mark is set soon,
// and other waiting threads do not delay a running one.
const SHORT_PAUSES: u32 = 8;

const GLANCES: u32 = 4096;

// The first sleep is of 32 microseconds. Each further one is twice as long, up to 2,048 microseconds.
const FIRST_SLEEP: u64 = 32;

const DOUBLINGS: u32 = 6;

// After this many pauses in a row without a new entry, about a second in all, a client no longer waits between its looks.
const MOST_PAUSES: u32 = 512;

/// Shared by the clients that look for marks: how many entries the log had when the last turn with one ended, and whether
/// one of them makes its looks without waiting.
#[derive(Drop)]
pub(crate) struct Growth {
    length: AtomicU64,
    hurry: AtomicU64,
}

impl Growth {
    /// For an empty log.
    pub(crate) fn new() -> Growth {
        Growth {
            length: AtomicU64::new(0),
            hurry: AtomicU64::new(0),
        }
    }

    /// Stores the number of entries of the log. The caller has the turn.
    pub(crate) fn tell(&self, length: usize) {
        let length = length as u64;
        if self.length.load(SeqCst) != length {
            self.length.store(length, SeqCst);
        }
    }

    // Looks at the length until it changes, `GLANCES` times at most.
    fn watch(&self, length: u64) {
        for _ in 0..GLANCES {
            if self.length.load(SeqCst) != length {
                return;
            }
        }
    }

    // Sleeps for as long, or not at all if the length has changed.
    fn sleep<R: Wait>(&self, rt: &R, length: u64, micros: u64) {
        let expected = (length & 0xffff_ffff) as u32;
        self.length
            .park_timeout(rt, expected, Duration::from_micros(micros));
    }
}

/// The patience of one client that looks for a mark.
#[derive(Drop)]
pub(crate) struct Patience {
    length: u64,
    pauses: u32,
    pauses_in_a_row: u32,
    is_out: bool,
}

impl Patience {
    pub(crate) fn new() -> Patience {
        Patience {
            length: 0,
            pauses: 0,
            pauses_in_a_row: 0,
            is_out: false,
        }
    }

    // Whether the log has grown since the last look.
    fn has_grown(&mut self, growth: &Growth) -> bool {
        let length = growth.length.load(SeqCst);
        let grown = length != self.length;
        self.length = length;
        grown
    }

    fn pause<R: Wait>(&mut self, rt: &R, growth: &Growth) {
        if self.pauses < SHORT_PAUSES {
            growth.watch(self.length);
        } else {
            let doublings = (self.pauses - SHORT_PAUSES).min(DOUBLINGS);
            growth.sleep(rt, self.length, FIRST_SLEEP << doublings);
        }
        self.pauses = self.pauses.saturating_add(1);
        self.pauses_in_a_row = self.pauses_in_a_row.saturating_add(1);
    }

    /// Waits until it is time for a look: the log has grown since the last one, or it has not for a second, and no other
    /// client makes its looks without waiting.
    pub(crate) fn wait<R: Wait>(&mut self, rt: &R, growth: &Growth) {
        for _ in rt.forever() {
            if self.is_out {
                return;
            }
            if self.has_grown(growth) {
                if self.pauses_in_a_row < MOST_PAUSES {
                    self.pauses_in_a_row = 0;
                }
                return;
            }
            if self.pauses_in_a_row >= MOST_PAUSES && growth.hurry.swap(1, SeqCst) == 0 {
                self.is_out = true;
                return;
            }
            self.pause(rt, growth);
        }
    }

    /// Ends the wait: another client may make its looks without waiting.
    pub(crate) fn end(self, growth: &Growth) {
        if self.is_out {
            growth.hurry.store(0, SeqCst);
        }
    }
}
