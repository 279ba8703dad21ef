//! The meaning of the stamps of a domain's nodes.
//!
//! | item | what it is |
//! |---|---|
//! | `laws` | functions that do nothing, with the laws as their contracts |
//!
//! A node has the stamp of the commit that made it, which is known by its receipt, or of the transaction whose view it is in. In the trees
//! of any two commits of a domain, nodes at one path with one stamp are one node, with the same rows at and below it. A node's stamp is
//! that of the last commit that touched its path, or the node is the opening's. A stamp that is no longer at a path never returns there,
//! and no tree has the stamp of a later commit. A view differs in its stamps from its base exactly where the transaction touched something
//! (`specs/Stamps`).
//!
//! So conflicts and changes are found by comparing stamps, however many commits are between.
//!
//! ```
//! laws::domains_keep_stamps(&domain);
//! ```
//!
//! Costs: none, since nothing here runs.
#![tactic(auto)]

pub mod laws;
