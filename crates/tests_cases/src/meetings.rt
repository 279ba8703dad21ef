//! Clients that wait for each other at the gate of a case.
use std::alloc::Global;
use std::io;
use std::sync::atomic::{AtomicU64, Ordering};
use std::thread::yield_now;

// How often a client looks for the one that it waits for, if the case does not say.
const LOOKS: u64 = 10_000_000;

// Before its step, the client waits until the other one has come to a step of its own.
#[derive(Drop)]
struct Meeting {
    client: u32,
    step: u32,
    other: u32,
    other_step: u32,
    has_come: AtomicU64,
}

/// The meetings of a case, and how many clients waited in vain.
#[derive(Drop)]
pub struct Meetings {
    list: Vec<Meeting>,
    looks: u64,
    missed: AtomicU64,
}

impl Meetings {
    /// No meetings.
    pub fn none(alloc: Global) -> Self {
        Meetings {
            list: Vec::new(alloc),
            looks: LOOKS,
            missed: AtomicU64::new(0),
        }
    }

    /// The meetings of the lines of a text.
    pub fn of_lines(alloc: Global, text: &str) -> io::Result<Self> {
        let mut meetings = Meetings::none(alloc);
        meetings.read(text)?;
        Ok(meetings)
    }

    // Adds what the lines say; what is no line of such a file is a client that waits in vain.
    fn read(&mut self, text: &str) -> io::Result<()> {
        for line in text.lines() {
            if let Some(looks) = line.strip_prefix("looks ") {
                self.looks = looks.parse::<u64>().unwrap_or(0);
            } else if let Some(meeting) = meeting_in(line) {
                self.list.push(meeting)?;
            } else {
                self.missed.fetch_add(1, Ordering::SeqCst);
            }
        }
        Ok(())
    }

    /// The client has come to the step: those that wait for it go on, and it waits itself for those that it is to meet.
    pub fn pass(&self, client: u32, step: u32) {
        for meeting in &self.list {
            if (meeting.other, meeting.other_step) == (client, step) {
                meeting.has_come.store(1, Ordering::SeqCst);
            }
        }
        for meeting in &self.list {
            if (meeting.client, meeting.step) == (client, step) {
                self.wait_for(meeting);
            }
        }
    }

    fn wait_for(&self, meeting: &Meeting) {
        for _ in 0..self.looks {
            if meeting.has_come.load(Ordering::SeqCst) == 1 {
                return;
            }
            yield_now();
        }
        self.missed.fetch_add(1, Ordering::SeqCst);
    }

    /// How many clients waited in vain.
    pub fn missed(&self) -> u64 {
        self.missed.load(Ordering::SeqCst)
    }
}

// The meeting of a line: the client and its step, the other one and its step.
fn meeting_in(line: &str) -> Option<Meeting> {
    let (client, rest) = number_in(line)?;
    let (step, rest) = number_in(rest)?;
    let (other, rest) = number_in(rest)?;
    Some(Meeting {
        client,
        step,
        other,
        other_step: rest.parse::<u32>().ok()?,
        has_come: AtomicU64::new(0),
    })
}

// The number before the first blank, and what is behind it.
fn number_in(text: &str) -> Option<(u32, &str)> {
    let (number, rest) = text.split_once(' ')?;
    Some((number.parse::<u32>().ok()?, rest))
}
