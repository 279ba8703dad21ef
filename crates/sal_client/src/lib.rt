//! The clients of a script: each answers its local steps by itself, and makes its shared calls on a hub.
//!
//! | item | what it is |
//! |---|---|
//! | `Readers` | a `Reader` for each version of the schema of domain 0 and for each device: reads the names, paths and values of a script |
//! | `Reader` | a schema with its patterns compiled |
//! | `ReadersFault` | which version of which schema has a malformed pattern |
//! | `ClientRun` | a client in its program: `next` does local steps up to a shared call, `make` makes that |
//! | `look_at` | the value of a client's slot |
//! | `Wish`, `RpcWish`, `NoteWish`, `MountWish` | a shared call as a value, which a client is ready to make |
//! | `RunFault` | why a client stops at a shared call |
//! | `play` | a script played in its order, on one thread |
//! | `Played`, `PlayFault` | the result: the hub and the replies; where the order fails |
//!
//! `play` gives what `sal_script` defines (`specs/Play.antt` there) over the domains of the hub. Only `ClientRun::make` needs the
//! hub, for one call, so clients can also run in separate threads and take turns at it. The arguments of a call are read before:
//! a wish has the rows and the paths, and the call consumes it.
//!
//! ```
//! let readers = Readers::of(alloc, &versions, &devices)?;
//! let played = play(alloc, &readers, &script, hub, &gate)?;
//! ```
#![tactic(auto)]

mod answers;
mod asking;
mod calls;
mod chains;
mod client;
mod fault;
mod follower;
mod listeners;
mod looks;
mod marks;
mod messages;
mod mounts;
mod notes;
mod operations;
mod reader;
mod readers;
mod rpc_calls;
mod rpcs;
mod run;
mod simulation;
mod slots;
mod upgrades;
mod wish;
mod writes;

pub use messages::Service;
pub use mounts::MountWish;
pub use notes::NoteWish;
pub use reader::Reader;
pub use readers::{Readers, ReadersFault};
pub use rpcs::{Answer, Ask, Invocation, RpcWish};
pub use run::ClientRun;
pub use simulation::{PlayFault, Played, play};
pub use slots::look_at;
pub use wish::{RunFault, Wish};
