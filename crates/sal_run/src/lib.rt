//! The clients of a script on separate threads, over one hub.
//!
//! | item | what it is |
//! |---|---|
//! | `run` | a whole script: each client on a thread, with its own seat; then the hub, and each client's replies |
//! | `run_clients` | clients that have their seats already, each on a thread, until its program ends or it stops; each keeps its place |
//! | `Hall` | their environment: the shared broker, and the readers of their steps |
//! | `SeatedRun` | a client with its seat, before and after |
//!
//! A client does its local steps independently, and takes a turn at the hub for each shared call. A look for a
//! mark takes a turn each time. The contracts hold for any order of the turns: the resulting log
//! has each client's calls, each once and in its order, and each client's replies are those that the definitions give along it
//! (`AreLogOf` of `sal_script`). By the laws there this is the result of the script when it is played in the order of that log.
//!
//! ```
//! let ran = run(rt, alloc, &readers, &script, hub, &gate)?;
//! let text = report(alloc, schema, ran.hub.log(), ran.replies.items(), ..)?;
//! ```
//!
//! | call | cost |
//! |---|---|
//! | `run` | a thread and a seat for each client; then the cost of its steps, and a turn for each shared call (`sal_broker`) |
//!
//! If no threads can be started, the clients run one after another, and a look for a mark of a later client is then late. No
//! contract says that a turn comes.
#![tactic(auto)]

mod clients;
mod joined;
mod script;
mod worker;

pub use clients::{Hall, SeatedRun, run_clients};
pub use script::run;
