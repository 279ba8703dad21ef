//! A broker inside another program: opened from a script's text, then one step of one client at a time, each with its reply at once.
//!
//! | item | what it is |
//! |---|---|
//! | `Embedded` | the broker: `open`, `step`, `report`; it is closed by dropping it |
//! | `Embedded::over`, `into_hub`, `OpenHub` | a broker over another hub, and the hub of a broker |
//! | `no_clients`, `no_order` | tests of a script: a broker is opened from one without both |
//! | `Embedded::waits`, `Waiting` | what waits for a client, without a step |
//! | `StepFault` | why a step has no reply |
//! | `CLIENTS` | client numbers are below this |
//! | `laws` | the steps so far are a script, played in the order of the log |
//!
//! The steps have the form of a script's steps, and a reply has the words of a report's line. There are no threads and
//! no waiting: a call returns when its step is answered. A client exists from its first step on, under the number that the
//! caller gives it; there is no registration.
//!
//! ```
//! let mut broker = Embedded::open(alloc, br#"{"modules":["module m { .. }"]}"#)?;
//! let text = broker.step(alloc, 0, br#"["begin",0,0,"rw"]"#)?; // begun 0
//! let report = broker.report(alloc)?;                          // order 0, 0 0 begun 0, tree 0 0 {} {}
//! ```
//!
//! Cost: that of the step itself, the reading of its JSON and one line of text, which is kept for the report. The log grows by
//! each shared call, up to 1,000,000. There is a place for each client number up to the greatest that was used: some 300 bytes each.
#![tactic(auto)]

mod caller;
mod clients;
mod embedded;
mod fault;
pub mod laws;
mod stepping;
mod waiting;

pub use embedded::{CLIENTS, Embedded, OpenHub, no_clients, no_order};
pub use fault::StepFault;
pub use waiting::Waiting;
