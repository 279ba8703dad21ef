//! The three phases of a commit: canCommit, preCommit and commit, over the two trees of a domain.
//!
//! | item | what it is |
//! |---|---|
//! | `Domain` | a domain: its number, its version rules, the versions of its schema, and its commits, the opening first |
//! | `Domain::begin_anew` | the domain in the next epoch, in place: its newest trees are its opening |
//! | `NextVersion`, `Domain::next_version`, `upgrade` | the next version with its rules, if the newest trees break none; the domain at it |
//! | `DomainFault` | why a domain is not opened |
//! | `can` | whether a submission's chain has failed, its domain is not live, or it conflicts with the foreign commits after its base |
//! | `pre` | both trees after the submission, if they break no structural rule |
//! | `publish` | the next commit of the domain: both trees at once |
//! | `decide` | the three phases one after another |
//!
//! Together they give the outcome that `sal_history` defines (`specs/Outcome.antt` there): the first conflict, else the
//! breach in the configuration, else that in the operational store, else the number of the new commit. Before all of these come
//! the receipt at which the submission's chain has failed, if the caller gives one, and then the domain, if it is not
//! `live`, as that of a device after its unmount. A commit after the base is
//! foreign if it is not of the submission's own chain; without a chain, all are. `pre` takes the memory of the
//! new commit and changes nothing; `publish` takes none, so it changes both stores; if it is not reached, neither changes.
//!
//! An upgrade has two parts, as a commit has: `Domain::next_version` takes the memory, and checks both newest trees completely by the
//! next version; `Domain::upgrade` takes none. The domain records the newest commit (`since`): the trees from there on break no rule
//! of the present version, and those before may, so a domain is never cut back to a commit before it. The versions are shared with
//! the code that opened the domain.
//!
//! An epoch of a domain is the time from its opening on. `Domain::begin_anew` begins the next one: the newest commit becomes the opening,
//! with its nodes and its receipt, and all other commits are dropped. Each later receipt is counted from that of the opening, so the
//! stamps of nodes grow over all epochs.
//!
//! `specs/` has which commits break no rule and which nodes a change keeps (`Sound`), the stamp of a new
//! commit and which commit may follow others (`Stamps`), the opening of a domain
//! (`Opening`), the next epoch (`Anew`), the invariant of a domain (`Domains`), the effect of an upgrade (`Versions`), and the results of each
//! phase and of a decision (`Deciding`).
//!
//! ```
//! let outcome = decide(alloc, &submission, &mut domain, None)?;
//! ```
//!
//! | call | copied | shared | scanned |
//! |---|---|---|---|
//! | `Domain::open` | a node for each path of the opening, and a list of numbers for each schema node | the schema | the rows, both trees whole |
//! | `Domain::reserve` | the list of commits, as it grows, without their contents | all of them | |
//! | `Domain::cut_to` | | | the commits that it drops |
//! | `Domain::begin_anew` | | the newest trees, which stay, and the present version with those after it | the commits that it drops |
//! | `Domain::next_version` | a list of numbers for each schema node | the version | both newest trees whole |
//! | `Domain::upgrade`, `last_schema` | | the version, which is moved | |
//! | `can` | the spans between the commits of the chain, and the path of a conflict | | see below |
//! | `pre` | for each operation the nodes on the paths to what it sets | the list of the operations, and all other nodes | see below |
//! | `publish` | | the commit, which is moved | |
//! | `decide` | what `can`, `pre` and `reserve` copy | as these | as these |
//!
//! `can` scans, for a submission of a chain, the chains of the commits after its base; for each operation its path at both ends of each
//! span; for a conflict whose path is absent at the end of its span, that span's commits with their operations and rows; and nothing if
//! the chain has failed or the domain is not live. `pre` scans the nodes of both new trees that are not shared, and the lists with a change
//! if they state a count, or a `unique` of which a leaf changed.
//!
//! So a decision takes memory and time for what the submission changes. A store that it does not change is not read.
//! A refused one frees all that it allocated.
#![tactic(auto)]

mod anew;
mod clashing;
mod deciding;
mod domain;
mod fault;
mod opening;
mod phases;
mod trees;
mod versions;

pub use deciding::decide;
pub use domain::Domain;
pub use fault::DomainFault;
pub use phases::{CanFault, PreFault, Prepared, Ready, can, pre, publish};
pub use versions::NextVersion;
