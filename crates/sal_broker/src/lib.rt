//! The broker that threads share: a hub under a lock, at which each caller has a seat.
//!
//! | item | what it is |
//! |---|---|
//! | `Sal` | the broker; a contract sees the name of its lock |
//! | `Seat` | a caller's place at it; a contract sees the lock and what the seat knows, a `View` of `sal_turn` |
//! | `Sal::open`, `over`, `close` | a broker over devices, or over a hub without calls, with its opening seat; back to the hub, once all are joined |
//! | `Sal::split`, `join` | one more seat, for a client with its own number; and two seats made one |
//! | `Sal::begin`, `submit`, `cancel`, `settle`, `pump`, `mark` | the calls of the hub, each in one turn |
//! | `Sal::open_chain`, `chain_begin`, `close_chain` | the same, of transaction chains |
//! | `Sal::listen`, `take`, `unlisten` | the same, of listeners |
//! | `Sal::provide`, `withdraw`, `invoke`, `next_call`, `answer`, `collect` | the same, of RPCs |
//! | `Sal::subscribe`, `offer`, `take_notes` | the same, of notifications |
//! | `Sal::mount`, `unmount`, `mount_at` | the same, of mounts |
//! | `Sal::upgrade` | the same, of the versions of the controller's own schema |
//! | `Sal::has_request`, `has_answer`, `has_notes`, `has_commits`, `is_decided` | the hub's looks at what waits, without an entry, a turn each |
//! | `Sal::after` | a look for a mark, a turn each, until it is set or `MAX_LOOKS` looks found none |
//! | `Sal::enter`, `leave` | a turn with direct access to the hub, for a caller that needs more than one call in it |
//! | `Sal::enter_after` | the turn of the last look for a mark, with direct access to the hub |
//! | `Held` | such a turn; a contract sees the log that was found and the hub, too |
//! | `laws` | a function that does nothing, with a law of the tokens as its contract |
//!
//! `specs/Turns` defines the effect of a call for a caller with a seat (`InTurn`): the log seen is a prefix of the log that its turn
//! finds, which has just the seat's own entries of its number; the reply is the one that the model gives for the call's
//! entry after that log; and then the seat has seen that log and the entry. The calls of other threads are visible
//! only in the log that is found.
//!
//! ```
//! let (sal, mut opening) = Sal::open(alloc, devices, Rules::One)?;
//! let mut seat = sal.split(&mut opening, 0);
//! let tx = sal.begin(rt, alloc, &mut seat, 0, Mode::Rw)?;
//! let hub = sal.close(sal.join(opening, seat));
//! ```
//!
//! | call | cost |
//! |---|---|
//! | `open`, `over` | that of `Hub::open`, or nothing; and the lock's memory |
//! | the calls, `enter` | a turn at the lock, some 150 ns while it is free; and the cost of the hub's call |
//! | `after`, `enter_after` | at most 4,194,304 looks, a turn and one search among the marks each, with sleeps between them |
//! | `split`, `join`, `leave` | one or two atomic steps; `leave` also stores the log's length beside the lock |
//!
//! A call waits for its turn: no contract says that it returns, and a caller that enters and never leaves blocks all others.
//! The head of `sal_turn` says how a seat waits. A client that looks for a mark reads the log's length from an atomic word beside the
//! lock, without a turn, and takes a turn if the length has changed. It is not woken, so working clients do nothing for waiting
//! ones. At first it looks at the word for some 30 microseconds; then it sleeps 32 microseconds, each time twice as long, up to
//! 2 milliseconds.
#![tactic(auto)]

mod calls;
mod chain_calls;
mod held;
pub mod laws;
mod listener_calls;
mod looks;
mod mount_calls;
mod note_calls;
mod rpc_calls;
mod sal;
mod seat;
mod shared;
mod version_calls;
mod waiting;
mod waits;

pub use held::Held;
pub use looks::MAX_LOOKS;
pub use sal::{OPENING_NUMBER, Sal};
pub use seat::Seat;
