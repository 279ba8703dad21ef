//! The hub: the log of shared calls over the domains, with their transactions, their pending submissions and their commits.
//!
//! | item | what it is |
//! |---|---|
//! | `Hub` | the domains and the log; a contract sees the opening trees and the log alone, `HubHistory` |
//! | `Hub::open` | a hub over devices whose opening trees fit at the root, unless one is refused (`OpenFault`); the first is the controller's own |
//! | `Hub::next_epoch` | the hub of the next epoch, which begins with the newest trees, without a copy; all else is dropped |
//! | `Hub::begin`, `submit`, `cancel`, `settle`, `pump` | the shared calls: each makes one entry of the log, and its reply is the one by the log |
//! | `Hub::open_chain`, `chain_begin`, `close_chain` | the same, of transaction chains (MD-SAL `DOMTransactionChain`) |
//! | `Hub::listen`, `take`, `unlisten` | the same, of listeners (MD-SAL `DOMDataTreeChangeListener`): the rows at a path, then the changes there |
//! | `Hub::mount`, `unmount`, `mount_at` | the same, of mounts (MD-SAL `DOMMountPointService`): a domain is live from mount to unmount |
//! | `Hub::provide`, `withdraw`, `invoke` | the same, of RPCs: providers and requests (MD-SAL `DOMRpcProviderService`, `DOMRpcService`; `sal_rpc`) |
//! | `Hub::next_call`, `answer`, `collect` | the same: requests and answers |
//! | `Hub::subscribe`, `offer`, `take_notes` | the same, of notifications (MD-SAL `DOMNotificationService`; `sal_note`) |
//! | `Hub::upgrade` | the same: the next version of the controller's own schema, unless a newest tree would break a rule of it |
//! | `Hub::mark`, `after`, `has_mark` | the same, of marks, by which clients signal each other; and a look without an entry |
//! | `Hub::has_request`, `has_answer`, `has_notes`, `has_commits`, `is_decided` | what waits for a client; looks without an entry |
//! | `Receipt`, `Chain`, `ListenerId`, `CallId` | the tokens of a submission, of a chain, of a listener and of a request |
//! | `Seen` | the result of a look for a mark |
//! | `Hub::stays_closed`, `keeps_the_rules` | do nothing; laws: committed trees are closed by the present schema versions; the newest break no rule |
//! | `Hub::stays_lawful`, `stays_serialisable` | the same: submissions are lawful, of transactions in a mode that writes; commits are serialisable |
//! | `laws` | functions that do nothing, with laws of the tokens as their contracts |
//!
//! Each call first tests that the log has room, then takes all memory that it needs, and changes the visible state last and all at
//! once: if memory runs out, the hub is unchanged. A settle for which memory runs out undoes its decisions, and such a call on a
//! service removes its entry.
//!
//! A decided submission is dropped, with its base, its view (if it was made) and the look-ups of its operations: its entry in the
//! log, its outcome and, if it is done, its commit stay. A settle for which memory runs out drops nothing. The entry, the submission and
//! the commit share the transaction's list of operations; only for a refused submit is it copied.
//!
//! Invariants relate the hub's state to the log. By `specs/Current` the pending submissions, the outcomes, the flags of spent
//! transactions and of live domains are those of the log's replies; each submission is lawful over its transaction's base
//! (`sal_history_laws`), from closed opening trees; and each domain has the version that the log's upgrades give. By
//! `specs/PipelineView` the commits of each domain, and the receipts at which chains failed, are those of the outcomes. `specs/Chains`
//! does so for chains, `specs/Listeners` for listeners, `specs/Marks` for marks, `specs/Services` for services; `specs/Whole` joins
//! them.
//!
//! In a domain that is not live no transaction begins, no chain is opened and no listener is made, and a submission that is decided after
//! the unmount is not committed. Calls on its existing listeners work as before.
//!
//! The controller's own domain has all versions of its schema from the start, and `upgrade` goes to the next one. Decisions use the
//! present version. A transaction keeps the version of its begin, by which it reads and writes, and operations that are lawful by that
//! version are lawful by each later one (`sal_history_laws`), so an upgrade checks no submission. Whether a listened path has its own row follows
//! from the last version. An upgrade makes the plan of the version's rules and checks the newest trees before its entry is added, and
//! takes no memory after it.
//!
//! The next transaction of a chain follows the chain's last submission while that is pending: it shares the view of that
//! submission, or makes it if it was not made, and has its base commit. Otherwise its base is the newest commit. In a failed chain no
//! transaction begins, and its pending submissions are decided with the receipt that failed. All transactions of a chain are of one domain.
//!
//! For each listener the hub keeps the number of the commit up to which its client has taken. A batch is made from the commits of the
//! domain when it is taken.
//!
//! A service does not depend on the hub: its state is a function of its own calls, for any sequence of these (`sal_rpc`,
//! `sal_note`, `sal_mount`). The hub adds the entry of such a call, passes the call to the service, and returns its reply, so
//! the service's state is always that of the log's calls on it. A refused call is an entry, and a call of the service, too.
//!
//! ```
//! let mut hub = Hub::open(alloc, devices, Rules::One)?;
//! let tx = hub.begin(alloc, client, 0, Mode::Rw)?;
//! ```
//!
//! | call | cost |
//! |---|---|
//! | `open` | for each device the nodes of its trees, and the check of both |
//! | `next_epoch` | the drop of the log and of all commits but the newest; nothing for each node that is kept |
//! | `log`, `domains`, `outcomes`, `newest`, `trees`, `newest_of`, `trees_of` | constant |
//! | `has_answer`, `has_commits`, `is_decided`; `has_request`, `has_notes` | constant; one search among the queues; no memory |
//! | `begin`, `cancel`, `open_chain`, `chain_begin`, `close_chain` | one search among the clients; a begin shares the nodes of its base |
//! | `mark`, `after`; `has_mark` | the same, and one search among the marks; that search alone |
//! | `listen` | one search among the clients, and a copy of the rows at the path and below it |
//! | `take` | the same search, and the changes of each commit after the listener's version (`sal_listen`) |
//! | `unlisten` | the same search |
//! | `mount`, `unmount`, `mount_at` | the same, and some searches among mounts (`sal_mount`); a mount copies its path twice |
//! | `upgrade` | one search among the clients, the plan of the version's rules, and the check of both newest trees of domain 0 (`sal_check`) |
//! | `submit` | one search among the clients; if it is refused, a copy of the operations for the log |
//! | `settle`, `pump` | the decision of each pending submission up to the receipt, or of the first (`sal_commit`), and one number for each domain |
//! | `provide`, `withdraw` | one search among the clients, two among the registrations, and a copy of the context for the log |
//! | `invoke` | the same, one more search among the queues, and a copy of the input for the log |
//! | `next_call`, `take_notes` | one search among the clients and one among the queues; nothing is copied |
//! | `answer`, `collect` | one search among the clients, and a copy of the output |
//! | `subscribe` | one search among clients, queues and notifications each, and a walk over the subscribers |
//! | `offer` | one search among clients and notifications each, a copy of the rows; for each subscriber two searches among queues and a copy |
#![tactic(auto)]

mod call_id;
mod chain;
mod chain_calls;
mod chains;
mod closed;
mod decided;
mod devices;
mod epoch;
mod failures;
mod first;
mod hub;
mod journal;
pub mod laws;
mod listener;
mod listener_calls;
mod listeners;
mod marks;
mod mount_calls;
mod note_calls;
mod opening;
mod pipeline;
mod pump;
mod reads;
mod receipt;
mod rpc_calls;
mod seen;
mod service_calls;
mod services;
mod start;
mod submit;
mod version_calls;
mod waits;

pub use call_id::CallId;
pub use chain::Chain;
pub use devices::are_tables;
pub use hub::{Hub, MAX_ENTRIES, MAX_PENDING};
pub use listener::ListenerId;
pub use listeners::MAX_LISTENERS;
pub use opening::OpenFault;
pub use receipt::Receipt;
pub use seen::Seen;
