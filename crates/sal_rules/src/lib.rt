//! The rules of a tree and of a write, as definitions over plain rows: which structural rules a tree breaks, and why a write
//! is refused. The only code is worked examples; `sal_check` and `sal_tx` have the calls that keep these definitions.
//!
//! | item | what it is |
//! |---|---|
//! | `Spot` | the schema node of a place of a tree |
//! | `TxFault`, `WriteOnly` | why a write or a read is refused |
//! | `examples`, `refused` | functions that do nothing, each with worked examples as its contract |
//! | `laws` | operations under a version of a schema and under each later one, as laws |
//!
//! `specs/` has the places of a tree and the node of each (`Places`), the tree as seen from a place (`Seen`), the context of a
//! node and the steps from it (`Contexts`), the five structural rules (`Rules`), all breaches with the one that is reported
//! (`Breaches`), why a write is refused (`Refusals`), which operations are for a schema (`Writes`), and which of that stays under a
//! later version of it (`Versions`).
//!
//! Rules are checked at each entry, presence container and container that is present, and at the root. A node whose context is a
//! list or presence container is required at each of them; one whose context is a case, if a node of the case is present; and one
//! without a context, if the tree has the top-level container above it. XPath, leafrefs and defaults are not
//! evaluated.
//!
//! Costs: none, since nothing here runs.
#![tactic(auto)]

pub mod examples;
pub mod fault;
pub mod laws;
pub mod refused;
pub mod spot;

pub use fault::{TxFault, WriteOnly};
pub use spot::Spot;
