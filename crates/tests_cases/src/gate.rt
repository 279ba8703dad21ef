//! A gate that counts its passes, to be compared with the steps of a report, and at which clients may wait for each other.
use crate::meetings::Meetings;
use sal_io::Gate;
use std::sync::atomic::{AtomicU64, Ordering};

// The largest number of rounds of a load.
const MAX_ROUNDS: u32 = 10000;

/// The number of steps, and the sum of their places, which distinguishes one step from another.
#[derive(Clone, Copy, PartialEq, Eq)]
pub struct Steps {
    pub count: u64,
    pub places: u64,
}

impl Steps {
    fn none() -> Self {
        Steps {
            count: 0,
            places: 0,
        }
    }

    fn with(self, client: u32, step: u32) -> Self {
        Steps {
            count: self.count.wrapping_add(1),
            places: self.places.wrapping_add(place(client, step)),
        }
    }
}

// A different number for each step of each client.
fn place(client: u32, step: u32) -> u64 {
    (u64::from(client) << 32) | u64::from(step)
}

/// A gate that counts, and lets every client pass at once but for its meetings.
#[derive(Drop)]
pub struct CountingGate {
    count: AtomicU64,
    places: AtomicU64,
    meetings: Meetings,
}

impl CountingGate {
    /// A gate with these meetings that no client has passed.
    pub fn new(meetings: Meetings) -> Self {
        CountingGate {
            count: AtomicU64::new(0),
            places: AtomicU64::new(0),
            meetings,
        }
    }

    /// The steps before which it was passed.
    pub fn passes(&self) -> Steps {
        Steps {
            count: self.count.load(Ordering::SeqCst),
            places: self.places.load(Ordering::SeqCst),
        }
    }

    /// How many clients waited there in vain.
    pub fn missed(&self) -> u64 {
        self.meetings.missed()
    }
}

impl Gate for CountingGate {
    fn pass(&self, client: u32, step: u32) {
        self.count.fetch_add(1, Ordering::SeqCst);
        self.places.fetch_add(place(client, step), Ordering::SeqCst);
        self.meetings.pass(client, step);
    }
}

/// The steps that a report answers, or those of a load by its summary; none if the text is neither.
pub fn answered(text: &str) -> Steps {
    if text.starts_with("order") {
        reported(text)
    } else {
        loaded(rounds_of(text).unwrap_or(0))
    }
}

fn reported(text: &str) -> Steps {
    let mut steps = Steps::none();
    for line in text.lines() {
        if let Some((client, step)) = step_of(line) {
            steps = steps.with(client, step);
        }
    }
    steps
}

// Four steps of each of four clients in each round.
fn loaded(rounds: u32) -> Steps {
    let mut steps = Steps::none();
    for step in 0..rounds.min(MAX_ROUNDS) * 4 {
        for client in 0..4 {
            steps = steps.with(client, step);
        }
    }
    steps
}

// The rounds on the first line of a summary.
fn rounds_of(text: &str) -> Option<u32> {
    let rest = text.strip_prefix("load ")?;
    let (rounds, _) = rest.split_once(' ')?;
    rounds.parse::<u32>().ok()
}

// The client and the number of the step that the line answers; none if it is another line of a report.
fn step_of(line: &str) -> Option<(u32, u32)> {
    let (client, rest) = line.split_once(' ')?;
    let (step, _) = rest.split_once(' ')?;
    Some((client.parse::<u32>().ok()?, step.parse::<u32>().ok()?))
}
