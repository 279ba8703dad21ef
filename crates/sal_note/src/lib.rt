//! Notifications: the subscribers, and the queue of each client.
//!
//! | item | what it is |
//! |---|---|
//! | `Notes` | the notifications of a broker, which a contract sees as the boxes of the calls |
//! | `NoteCall`, `NoteReply`, `NoteFault` | a call of a client, its reply, why it is refused |
//! | `Note`, `NoteList` | a notification with its data; notifications in order |
//! | `laws` | functions that do nothing, each with a law of the definitions as its contract |
//! | `examples` | the same with worked examples |
//!
//! `specs/Queues` defines the meaning of the calls from their list. An offer goes to each client that is subscribed at that
//! time, or to none if 64 notifications wait for one of them. A client takes all that waits for it at once. `specs/Boxes`
//! defines the boxes of a list of calls, and `specs/Answers` the effect of a call: for any earlier calls, it returns the reply by
//! the definition, and the boxes are those of one call more. So a caller that logs its calls knows the replies from the log.
//!
//! ```
//! let mut notes = Notes::new(alloc);
//! notes.subscribe(alloc, client, alarm)?;
//! let count = notes.offer(alloc, publisher, alarm, rows)?;
//! let waiting = notes.take_notes(alloc, client);
//! ```
//!
//! | call | cost for s subscribers of the notification |
//! |---|---|
//! | `Notes::subscribe` | a search among the clients and one among the notifications, and a walk over the subscribers |
//! | `Notes::offer` | a search among the notifications; for each subscriber two searches among the clients and a copy of the rows |
//! | `Notes::take_notes` | a search among the clients; nothing is copied, and it takes no memory |
//! | `Notes::has_notes` | a search among the clients; no memory |
//!
//! A search compares some log n numbers. If memory runs out within an offer, it is removed from the queues that have it, with a
//! search each. At most 64 notifications wait for a client, so memory grows with the clients and not with the offers.
#![tactic(auto)]

pub mod call;
mod clients;
pub mod examples;
pub mod laws;
pub mod notes;
mod queue;

pub use call::{Note, NoteCall, NoteFault, NoteList, NoteReply};
pub use notes::Notes;
