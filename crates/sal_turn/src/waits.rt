//! How a seat waits for its turn, and who wakes it. The head of the crate says why no wake-up is lost.
ghost use Rattle.std.specs.Prelude.{◌≡◌, ◌<◌, ◌+◌};

use crate::chronicle::Chronicle;
use crate::turn::{NEXT_TICKET, TURN_SERVED, Turn};
use crossbeam_utils::Backoff;
use crossbeam_utils::sync::EventCount;
use std::sync::Wait;
use std::sync::atomic::AtomicBool;
use std::sync::atomic::Ordering::SeqCst;

// The most times that a seat sleeps outside. Then it draws its ticket in any case.
const MOST_SLEEPS: u32 = 64;

// The number of looks before each sleep. Between them the thread spins briefly, later it yields to other threads.
const LOOKS: u32 = 11;

// Tickets that differ by a multiple of this share a door.
const DOORS: u64 = 8;

/// Where seats sleep: outside without a ticket, and with one at its door.
#[derive(Drop)]
pub(crate) struct Sleepers {
    outside: EventCount,
    // Whether a seat outside is called: it was woken, and neither draws its ticket yet nor sleeps again.
    is_called: AtomicBool,
    doors: [EventCount; 8],
}

impl Sleepers {
    pub(crate) fn new() -> Sleepers {
        Sleepers {
            outside: EventCount::new(),
            is_called: AtomicBool::new(false),
            doors: [
                EventCount::new(),
                EventCount::new(),
                EventCount::new(),
                EventCount::new(),
                EventCount::new(),
                EventCount::new(),
                EventCount::new(),
                EventCount::new(),
            ],
        }
    }

    fn door(&self, ticket: u64) -> &EventCount {
        &self.doors[(ticket % DOORS) as usize]
    }

    /// Wakes those at the door of the ticket, whose turn has come, and calls one seat outside unless one is called.
    pub(crate) fn wake(&self, ticket: u64) {
        self.door(ticket).notify_all();
        if !self.is_called.load(SeqCst) && !self.is_called.swap(true, SeqCst) {
            self.outside.notify_one();
        }
    }

    // Lets the next leaver call a seat.
    fn end_call(&self) {
        self.is_called.store(false, SeqCst);
    }
}

// How often a seat may still sleep outside.
#[derive(Drop)]
struct Sleeps {
    left: u32,
}

impl<V: Chronicle> Turn<V> {
    // Whether each ticket's turn was over at the second load: the turn served, which was loaded first, never passes the next ticket.
    fn is_free(&self) -> bool {
        let served = self.table.shared.peek(TURN_SERVED);
        self.table.shared.peek(NEXT_TICKET) == served
    }

    // Looks several times, and answers whether a look finds the lock free.
    fn is_free_soon(&self) -> bool {
        let backoff = Backoff::new();
        for _ in 0..LOOKS {
            if self.is_free() {
                return true;
            }
            backoff.snooze();
        }
        false
    }

    // Sleeps until the seat is woken, if a look after the announcement finds the lock busy. It is one of the sleeps that are left.
    fn sleep_outside<R: Wait>(&self, rt: &R, sleeps: &mut Sleeps)
        requires { 0 < sleeps.old.left }
        ensures { sleeps.new.left + 1 ≡ sleeps.old.left }
    {
        sleeps.left -= 1;
        let key = self.sleepers.outside.prepare_wait();
        self.sleepers.end_call();
        if self.is_free() {
            return;
        }
        key.wait(rt);
    }

    /// Waits until a look finds the lock free, or the seat has slept `MOST_SLEEPS` times.
    pub(crate) fn wait_outside<R: Wait>(&self, rt: &R) {
        if self.is_free_soon() {
            return;
        }
        let mut sleeps = Sleeps { left: MOST_SLEEPS };
        for _ in rt.forever() {
            if sleeps.left == 0 {
                break;
            }
            self.sleep_outside(rt, &mut sleeps);
            if self.is_free_soon() {
                break;
            }
        }
        self.sleepers.end_call();
    }

    // Looks several times, and answers whether a look finds that the ticket's turn has come.
    fn is_served_soon(&self, ticket: u64) -> bool {
        let backoff = Backoff::new();
        for _ in 0..LOOKS {
            if self.table.shared.peek(TURN_SERVED) == ticket {
                return true;
            }
            backoff.snooze();
        }
        false
    }

    /// Waits until a look finds that the ticket's turn has come, or the seat was woken.
    pub(crate) fn wait_at_door<R: Wait>(&self, rt: &R, ticket: u64) {
        if self.is_served_soon(ticket) {
            return;
        }
        let key = self.sleepers.door(ticket).prepare_wait();
        if self.table.shared.peek(TURN_SERVED) == ticket {
            return;
        }
        key.wait(rt);
    }
}
