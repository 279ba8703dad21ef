//! The text of a run over the schemas of its domains: the order of the calls, a line for each step, and the trees at the end.
//!
//! | call | what it is |
//! |---|---|
//! | `report` | the text for a log, the replies to the clients' steps, and the trees at the end |
//! | `DomainEnd` | a domain at the end of a run: its number, commits and trees |
//! | `reply_text` | the text of one reply, as its line has it |
//! | `report_of_lines` | the text of a run, if the lines of the steps are texts already |
//! | `tree_line` | the line of a domain with its trees, alone |
//! | `told_domains` | the domains of which it shows the trees: the controller's own, and each device that was ever mounted |
//! | `data_fault_text` | why a value is not data of the schema, as text |
//! | `summary` | the summary of a load: the numbers of calls, commits and rows, and the sum of the numbers |
//! | `breach_text`, `path_words` | where a structural rule is broken and which; a path |
//!
//! `sal_script` defines the texts, to the byte (`specs/Report`, with its words in `specs/Words`): for all schemas, logs,
//! replies and trees. Paths are written by `sal_pathtext` and rows by `sal_data`, as JSON (RFC 7951). The paths and data of a domain are written
//! by the last version of its schema, or by one without nodes if it has none; requests, outputs, notifications, mounts and upgrades are
//! of domain 0.
//!
//! ```
//! let told = told_domains(alloc, schemas.len() as u32, log)?;
//! // 0 alone, as no device was mounted; so `trees` has the trees of domain 0
//! let text = report(alloc, &schemas, log, &[replies], &trees)?;
//! // order 0 0 0
//! // 0 0 begun 0
//! // 0 1 ok
//! // 0 2 receipt 1
//! // 0 3 done 1
//! // tree 0 1 {"topo:network":{"node":[{"id":"a"}]}} {}
//! ```
//!
//! Cost: the text grows in place, with the JSON of one reply at a time; trees are written from their nodes, and a load's rows are
//! counted on them (`sal_tree_text`). Time is linear in the text, plus that of `sal_data` for the rows of a reply and of `sal_pathtext`
//! for the paths. `told_domains` goes once through the log and applies its calls on mounts again, at the cost of `sal_mount`.
#![tactic(auto)]

mod answered;
mod arrays;
mod batches;
mod breaches;
mod faults;
mod lines;
mod listeners;
mod load;
mod mounted;
mod pieces;
mod replies;
mod schemas;
mod services;
mod told;
mod words;

pub use answered::{reply_text, report_of_lines};
pub use breaches::{breach_text, path_words};
pub use faults::data_fault_text;
pub use lines::{report, tree_line};
pub use load::summary;
pub use mounted::told_domains;
pub use told::DomainEnd;
pub use words::store_word;
