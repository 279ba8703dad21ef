//! The log of shared calls and its meaning: the definitions for every claim about the broker.
//!
//! | item | what it is |
//! |---|---|
//! | `Call`, `Entry`, `Log` | a shared call; a call with its client; the calls in order |
//! | `SharedOps` | the operations of a submission, which the log and the commit have together |
//! | `Reply` | the reply to a shared call |
//! | `Device`, `Opening` | the versions of a domain's schema with its opening trees; its trees before the first commit |
//! | `examples`, `chain_examples`, `listener_examples`, `read_examples` | functions that do nothing, each with worked examples as its contract |
//! | `rule_examples`, `service_examples`, `version_examples` | the same |
//! | `laws` | functions that do nothing, each with a law of the log's meaning as its contract |
//!
//! `specs/History` defines the reply to each entry of a log, with receipts, outcomes, commits, trees, and the base and view of a
//! transaction. Its only state is the list of calls: every tree is computed from the opening, every conflict by a search in the
//! later commits. The rules:
//!
//! - The world is a list of domains, each with the tables of its schema's versions, its opening trees and its version rules
//!   (`specs/World`). Domain 0, the controller's own, is the only one with several versions, and is always live; a device's domain is
//!   live from its mount to its unmount, once. Transactions begin, and chains and listeners are opened, only in live domains.
//! - The base of a transaction without a chain is its domain's newest commit when it begins, and it sees that commit's trees with
//!   its own writes applied.
//! - A chain (`DOMTransactionChain`) has one transaction at a time: the next one begins once the last is submitted or
//!   cancelled. While the chain's last submission is pending, the next transaction follows it: it has the same base
//!   commit, and sees the trees after that submission. Otherwise its base is the newest commit.
//! - A submission has the next receipt. It is refused if 4,096 receipts are pending, that is not decided, or
//!   if its transaction is spent, that is submitted or cancelled before. To cancel is accepted.
//! - A settle decides the pending receipts up to its own, in order, and returns the outcome of that one. A pump decides the
//!   first pending one.
//! - A chain has failed once one of its submissions has an outcome other than done (`onTransactionChainFailed`).
//!   Each later submission of the chain has that receipt as its outcome, and each later begin in the chain is refused with
//!   it. A closed chain begins no transaction either; those that began or were submitted stay valid.
//! - Otherwise, if the submission's domain is not live when it is decided, the outcome is that it is unmounted.
//! - Otherwise the outcome is decided at the domain's newest commit (`specs/Outcome`), as the first of these that applies. A conflict
//!   by the domain's version rules with a commit after the base names the store, the place, how that differs, and the commit
//!   (`sal_rows`). The commits of the submission's own chain are left out: it is checked against the spans between them. A
//!   breach of a structural rule in the configuration after the operations, or else in the operational tree, names the store,
//!   the path and the rule (`sal_rules`). Or it is done: both stores change together, as the next commit.
//! - A transaction of mode `Checked` has each of its reads among its operations. A read sets nothing, and is a conflict if a
//!   foreign commit after the base touched what it read. So runs of such transactions are serialisable: `sal_history_laws` has
//!   the law. A done submission of reads alone is a commit that changes nothing.
//! - RPCs, notifications and mounts are separate services (`sal_rpc`, `sal_note`, `sal_mount`), each over its own calls in
//!   the order of the log: `specs/Services` says which of the shared calls are whose, and what their answers are as replies. A
//!   call on one service, or a transaction, does not affect the answers of another service, except that mounts make domains live.
//! - A mark is found by each later look.
//! - The schema of domain 0 has versions (`specs/Versions`), and the present one is the number of accepted upgrades. An
//!   upgrade is refused unless it is to the next version, and if a newest tree of domain 0 would break a rule of that version, the
//!   configuration checked before the operational tree. A decision, and so all those of one settle, is by the version at that time,
//!   not by that at the begin of the transaction; conflicts do not depend on versions. A transaction writes and reads by the
//!   version at its beginning, and batches are by the last version.
//!
//! Laws of a refused client. In each log, the commit that a receipt's conflict names was done before that receipt,
//! came after the base of its transaction, is not of its own chain, and touched the path that the conflict names. That
//! path is at or above one of the transaction's operations, or under version rules 2 that of a leaf that one of them merges
//! (`laws::conflicts_name_a_later_commit`). So a chain never
//! conflicts with itself; unless it has failed, what one of its submissions saw of pending ones is what they
//! committed; and commits have the order of receipts (`laws::chains_keep_to_themselves`). A done submission
//! breaks no rule, in either store (`laws::done_leaves_no_breach`), of the version at its decision; so the newest trees break
//! no rule of the present version (`laws::newest_trees_keep_the_rules`), and versions follow one another
//! (`laws::upgrades_go_one_by_one`).
//!
//! Laws of services, in each log. A request is handed out at most once, to the client whose registration its invocation found
//! (`laws::requests_go_to_their_provider_once`). A collected answer is the one that was given (`laws::answers_are_collected_as_given`). A
//! subscriber takes each notification that was offered to it once, and in order (`laws::notifications_are_taken_once_in_order`).
//!
//! Costs: none. Only the prover reads definitions, examples and laws, and `SharedOps` takes no memory.
#![tactic(auto)]

pub mod call;
pub mod chain_examples;
pub mod examples;
pub mod laws;
pub mod listener_examples;
pub mod opening;
pub mod read_examples;
pub mod reply;
pub mod rule_examples;
pub mod service_examples;
pub mod shared;
pub mod version_examples;

pub use call::{Call, Entry, Log};
pub use opening::{Device, Opening};
pub use reply::Reply;
pub use shared::SharedOps;
