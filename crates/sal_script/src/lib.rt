//! Scripts: the steps of each client of a run, and the order in which their shared calls are made.
//!
//! | type or call | what it is |
//! |---|---|
//! | `Script`, `ScriptDevice` | a script; a device of it, other than domain 0 |
//! | `Program`, `ScriptStep` | a client's steps; one step |
//! | `StepReply`, `StepRefusal` | the reply to a step; why it made no call |
//! | `DomainTrees` | the trees of a domain at the end of a run |
//! | `read_script` | the script that bytes denote, or the first fault |
//! | `read_step` | the one step that bytes denote |
//! | `ScriptFault` | why bytes are no script |
//! | `load_script` | the script of a load: four clients that put entries into one list, each its own |
//!
//! A client begins transactions into slots, with a mode; puts, merges and deletes at paths of either store; reads, and asks
//! whether a path is present; submits or cancels; and settles receipts. It opens transaction chains into chain slots,
//! begins their transactions and closes them; decides the first pending receipt, of any client; and sets marks and looks
//! for them. It listens to a store at a path, takes batches, and looks at its mirror, which has the rows after the last
//! batch. It provides RPCs, makes requests into slots and collects their answers, and takes requests into slots and answers
//! them; it subscribes to notifications, offers and takes them; it mounts devices, each a domain with its own schema; and it
//! upgrades the schema of domain 0 to its next version, for which the script has further modules.
//!
//! Names and paths are texts and values are JSON, of any kind. They are read when the step is answered, so a text that is no path is
//! refused then, and is no fault of the script. A transaction uses the version of its domain's schema that was present at its
//! begin, a listener the last version; RPCs, notifications and mounts are domain 0's, and use the last version of its schema.
//!
//! `specs/Script` defines which script bytes denote, with the steps of `specs/Moves` by their forms in `specs/Steps`; `specs/Play`
//! the play of a script in an order, with the calls on services in `specs/Services`; and `specs/Report` the text of that, with its
//! words in `specs/Words`, and batches, inputs, outputs and notifications as JSON in `specs/BatchData` and `specs/MessageData`.
//! `specs/Load` has a load's script and its summary. `examples`, `checked_examples`, `chain_examples`, `listener_examples`,
//! `service_examples`, `upgrade_examples`, `along_examples` and `load_examples` have worked examples, each proved by computing it.
//!
//! `laws`: of the values of a script that was read, each name occurs once in its object, and their rows at a path that was read
//! fit the schema. The log of a play is in the given order and has the shared calls of each client, each once and in the client's
//! own order (`specs/Orders`). The result of clients that run at the same time (`specs/Along`) is the play of the script in one
//! order, which its report states (`specs/OneOrder`, `specs/SomeOrder`).
//!
//! ```
//! let script = read_script(alloc, br#"{"clients":[{"steps":[["begin",0,0,"rw"]]}],"order":[0]}"#)?;
//! ```
//!
//! Cost: linear in the bytes; values are copied once. Hostile input is refused with its place; nesting is bounded by the JSON reader.
#![tactic(auto)]

pub mod along_examples;
pub mod chain_examples;
mod chain_step;
mod checked;
pub mod checked_examples;
mod device;
pub mod examples;
pub mod fault;
pub mod laws;
pub mod listener_examples;
mod listener_step;
mod load;
pub mod load_examples;
pub mod read;
pub mod reply;
pub mod script;
pub mod service_examples;
mod service_step;
mod step;
mod texts;
pub mod trees;
pub mod upgrade_examples;
mod upgrades;
mod values;

pub use fault::ScriptFault;
pub use load::{LOAD_CLIENTS, LOAD_MODULE, MAX_ROUNDS, MAX_START, load_script};
pub use read::{read_script, read_step, value_of};
pub use reply::{StepRefusal, StepReply};
pub use script::{
    MAX_CLIENTS, MAX_DEVICES, MAX_PROGRAM, MAX_UPGRADES, PLAIN, Program, Script, ScriptDevice,
    ScriptStep,
};
pub use trees::DomainTrees;
pub use values::list_of;
