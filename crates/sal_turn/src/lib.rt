//! The turn lock: callers on many threads take turns at one value, which keeps a list of entries.
//!
//! | item | what it is |
//! |---|---|
//! | `Chronicle` | a value that keeps a list of entries, each of one client, and a ground that no turn changes |
//! | `Turn` | the lock; a contract sees it as its name. `make_turn` makes a whole turn by a closure |
//! | `Seat` | a caller's place at the lock, between two turns; a contract sees its lock and what it knows, a `View` |
//! | `Held` | a turn: the value in the hands of one seat; a contract sees the entries that were found, too |
//! | `View`, `Stage` | what a seat knows; its state. Contracts only: no value of them exists at run time |
//!
//! A seat knows a beginning of the entries, its list *seen*, and all entries of its number, its *own* entries. In its turn it
//! finds a longer list, or the same, with just these entries of its number, and may add one. A seat may be split, so that
//! another thread has one, and two seats may be joined. The seat that the lock was opened with closes it, once all
//! others were joined: then the entries of each number given are known, and there are no others.
//!
//! ```
//! let (turn, mut seat) = Turn::open(alloc, book, 1)?;
//! let other = turn.split(&mut seat, 2);
//! let mut held = turn.enter(rt, seat);
//! let added = held.value().add(1, amount);
//! let seat = turn.leave(held);
//! added?;
//! let book = turn.close(turn.join(seat, other));
//! ```
//!
//! `specs/` has the rule of the lock (`Rule`), the effect of its steps on a seat (`Tells`), what seats know (`Views`), and the effect of a
//! whole turn (`Turns`). The lock is two atomic words, the next ticket and the turn served, and one slot for the value, on a table of
//! `atomic_table`.
//!
//! | call | cost |
//! |---|---|
//! | `open` | the table's memory: two words and one slot |
//! | `enter` | two loads if the lock is free, one atomic step for the ticket, and a load for each look; for a busy lock see below |
//! | `value`, `peek` | none |
//! | `leave` | two atomic steps, two loads that look for sleepers, a step more to call one, and a call of the system for each that it wakes |
//! | `make_turn` | `enter` and `leave`, and what the call costs |
//! | `split`, `join` | one or two atomic steps |
//! | `close` | frees the table's memory |
//!
//! Only `open` takes memory, and only `enter` and `make_turn` wait. No contract says that a call of `enter` returns: a turn that never
//! ends blocks all other seats.
//!
//! # How a seat waits
//!
//! Turns follow the order of the tickets, and a seat with a ticket blocks all later ones until its thread runs. On a busy
//! machine that may take a time slice. So a seat waits *outside* before it draws its ticket. It looks whether the lock is
//! free (the next ticket is the turn served). If it is, the seat draws. If not, it looks some more times, lets other threads
//! run, and then sleeps until a turn ends. A running thread may so take many turns before a woken one runs. With its
//! ticket a seat waits at the *door* of that ticket in the same way; that wait is short, unless two seats drew at one time.
//!
//! **One seat is called at a time.** Waking a sleeper may cost more than a turn. So a leaver *calls* a seat outside only if
//! none is called. A flag records that one is (`is_called`): the leaver sets it and wakes one sleeper. The woken seat
//! clears it before it draws its ticket; when its turn ends, it calls the next one. If all its looks find the lock busy,
//! it sleeps again. Before it sleeps, a seat clears the flag too, whoever set it, after its announcement and
//! before its last look: so the next leaver calls one.
//!
//! **No seat waits for ever.** A seat that has slept 64 times outside draws its ticket in any case. From then on only
//! the tickets before its own come first: one for each other seat at most. How many turns end while it sleeps, and until a
//! woken thread runs, depends on the system. Fairness is not claimed.
//!
//! **No wake-up is lost.** No proof sees sleepers, so this is an argument. All atomic steps have one order, the same for all
//! threads; the flag is atomic too. Before it sleeps, a seat announces itself (`prepare_wait`), looks again, and sleeps only if
//! that look finds the lock busy (outside), or another turn served (at a door). A leaver changes the turn served (`Pass`), and
//! then looks for announced seats: it wakes all at the door of the next ticket, and calls one sleeper outside,
//! unless one is called. An announced seat that does not sleep yet stays awake when others are woken.
//!
//! - *At a door.* The turn of a ticket comes by one `Pass`. If the seat was announced when the leaver looked, it is woken. If
//!   not, its own look comes after the `Pass`, and finds its turn. Of two seats with one door, the one whose turn it is not
//!   sleeps again, and the `Pass` that brings its turn comes later.
//! - *Outside.* Suppose that a seat sleeps and is never woken. It was announced, then cleared the flag, and then its look found
//!   the lock busy: either a ticket was out, or a turn ended between the two loads. So a `Pass` follows its clearing. Take the
//!   last `Pass` of all, and what its leaver then finds.
//!   - The flag is clear. The leaver sets it, finds that a seat is announced, and wakes one sleeper. All steps of this seat
//!     after its sleep follow the last `Pass`.
//!   - The flag is set. A leaver set it after the clearing, found a seat announced, and woke one sleeper. This seat
//!     clears the flag after its sleep, before it draws or sleeps. No seat did so between the setting and the look of the last
//!     leaver, so its clearing and all its later steps follow the last `Pass`.
//!
//!   In both cases a seat draws a ticket after the last `Pass`, or looks after it and before it sleeps. If the look finds
//!   the lock free, the seat does not sleep: it looks again or draws. Otherwise the look finds a ticket out. In the end a
//!   ticket is out after the last `Pass`, and its turn ends by one more `Pass`: a contradiction.
//!
//! So a woken seat that finds the lock busy may sleep again: the seat that has the turn calls one when it leaves. And if no
//! other seat comes, each woken seat leaves and calls the next, until none sleeps.
#![tactic(auto)]

mod chronicle;
mod held;
mod rule;
mod seat;
mod steps;
mod turn;
mod turns;
mod view;
mod waits;

pub use chronicle::Chronicle;
pub use held::Held;
pub use seat::Seat;
pub use turn::Turn;
pub use view::{Stage, View};
