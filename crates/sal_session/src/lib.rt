//! A broker or its stand-by with the text of its last call, for a host that uses numbers and texts.
//!
//! | item | what it is |
//! |---|---|
//! | `Session` | a broker, a stand-by or nothing, with the text of the last call |
//! | `Session::open`, `step`, `report`, `reply` | opens a broker; a step; the report; the text |
//! | `Session::frames`, `snapshot`, `epoch`, `left` | the broker's commits as frames; the next epoch; the entries that the log has left |
//! | `Session::follow`, `feed`, `lead` | opens a stand-by; takes frames; becomes the broker |
//! | `Session::waits` | what waits for a client, without a step |
//! | `Session::look`, `number`, `domains`, `version` | a read without a step; the number of a newest commit; how many domains; the version of the schema |
//! | `loose` | the same as a pointer, for a host that keeps it: its users prove nothing about the broker |
//! | `DONE`, `NO_MEMORY`, .. | the numbers of the statuses |
//!
//! ```
//! let (mut session, status) = Session::open(alloc, br#"{"modules":["module m { .. }"]}"#);
//! let status = session.step(alloc, 0, br#"["begin",0,0,"rw"]"#); // 0
//! let text = session.reply();                                     // begun 0
//! ```
//!
//! Cost: that of the broker's call.
#![tactic(auto)]

mod answer;
mod leading;
pub mod loose;
mod numbers;
mod role;
mod session;
mod standing;
mod text;

pub use numbers::{
    BAD_CLIENT, BAD_DOMAIN, BAD_EXPORT, BAD_STEP, BAD_STREAM, BAD_VERSION, BROKEN, DONE, EMPTY,
    FULL, GONE, IS_OPEN, IS_STANDBY, LOST, NO_MEMORY, NOT_NEWEST, NOT_OPEN, PENDING, UNTOLD,
};
pub use role::Role;
pub use session::Session;
pub use text::Text;
