//! All names that an application of the broker needs, in one crate.
//!
//! | item | what it is |
//! |---|---|
//! | `Sal`, `Seat` | the broker; a thread's place at it |
//! | `Held` | a turn at the broker that the caller keeps |
//! | `Device`, `Opening`, `OpenFault` | a domain before the first commit, its opening trees, why they are refused |
//! | `Rules` | the version rules, 1 or 2 |
//! | `Hub` | the result of closing a broker: its log and its trees |
//! | `Mode`, `Tx`, `ReadTx`, `WriteTx`, `TxFault` | transactions, and why a write or a read is refused |
//! | `Receipt`, `Outcome`, `ClashKind`, `Rule` | a submission, and its outcome |
//! | `update`, `Work`, `Tries`, `UpdateFault` | a transaction that begins again after a conflict |
//! | `Chain`, `ListenerId`, `CallId` | the tokens of a chain, of a listener, of a request |
//! | `Opened`, `Batch`, `Part`, `Change`, `CandidateKind`, `Mirror`, `MirrorFault` | a listener's snapshot and batches, and a copy that they update |
//! | `Request`, `Note`, `NoteList` | a provider's request, and a subscriber's notifications |
//! | `Seen`, `CallFault` | the result of a look for a mark; why a call is refused |
//! | `Path`, `Step`, `Keys`, `Store`, `Rows`, `Row`, `Cell`, `Value`, `Atom`, `Op`, `Act` | places in a tree, and data |
//! | `Str`, `Bytes`, `Seq`, `Duplicate`, `NoMemory` | texts, bytes and lists; copies, and the error for memory that ran out |
//! | `schema_of`, `SchemaFault`, `Schema` | from YANG texts to a schema, or to the first fault |
//! | `read_module`, `build`, `Stmt`, `StmtFault`, `BuildFault` | the two parts of `schema_of` |
//! | `build_first`, `build_on`, `SchemaVersion` | the first version of a schema, and the next one of more modules, for `Device` and `Sal::upgrade` |
//! | `Patterns`, `read_path`, `write_path`, `read_data`, `write_data`, `fits_rows` | paths as texts, and data as JSON |
//! | `empty_device`, `open_empty` | a device without data; a broker over it |
//! | `is_for`, `is_place` | whether a transaction may put or merge these rows there, and whether it may delete there |
//! | `draw_log` | how the clients of a hub affect each other, as a picture |
//! | `next_hub`, `next_devices`, `Mount`, `mounts_of` | the next epoch: a hub without calls that begins with the trees of this one |
//! | `frames_of`, `frames_since`, `frames_by`, `frames_on`, `own_frames`, `snapshot_by`, `snapshot_of_newest`, `own_snapshot`, `resume` | the commits of a hub as a stream of bytes, and a hub that begins with what a stream holds |
//! | `Follower`, `FollowFault`, `Frame`, `Front`, `NextFrame`, `follower_of` | a copy of a domain that follows such a stream, and the next frame of one |
//! | `export`, `export_since`, `export_on`, `export_kept`, `snapshot_of`, `ExportFault` | the stream of a history |
//! | `places_count_bytes` | does nothing: the law that a fault of a stream has the place of its byte |
//! | `Owners`, `OwnerSeat`, `OwnerBook` | entity ownership, and a thread's place at it |
//! | `Entity`, `OwnershipState`, `Owned`, `OwnedList`, `OwnerChange`, `Changes`, `OwnerFault` | what is owned, what candidates are told, why a call is refused |
//! | `OwnerCall`, `OwnerReply`, `OwnerEntry`, `OwnerLog`, `Standing` | the calls of ownership, as a log |
//! | `Feed`, `OfferSeat`, `TakeSeat`, `Full`, `Invariant`, `NoInvariant` | notifications from one thread to another without a hub |
//! | `what_is_read_is_readable` | does nothing: the law for the `requires` of `build` |
//!
//! `specs/` has the definitions that the contracts of these calls cite: a clause of an application names
//! `Rattle.sal.specs.Turns.{Keeps}`. `proofs/` has the lemmas that each application needs: which types may be sent to another thread
//! (`Sendable`), that joined seats answer for all numbers given (`AllJoined`), and that one device without upgrades is what
//! `Sal::open` requires of versions (`OneVersion`).
//!
//! ```
//! let schema = Arc::new(alloc, schema_of(alloc, &[TEXT])?)?;
//! let devices = vec![in alloc; empty_device(alloc, schema)]?;
//! let (sal, mut seat) = Sal::open(alloc, devices, Rules::One)?;
//! let Tx::Write(mut tx) = sal.begin(rt, alloc, &mut seat, 0, Mode::Rw)? else { .. };
//! if is_for(tx.schema(), Store::Config, &path, &rows) {
//!     tx.put(alloc, Store::Config, path, rows)?;
//! }
//! ```
//!
//! | call | cost |
//! |---|---|
//! | `schema_of` | that of `read_module` for each text, and that of `build` |
//! | `empty_device` | constant |
//! | `open_empty` | that of `Sal::open` |
//! | `is_for` | that of `fits_rows` and a walk along the path |
//! | `is_place` | a walk along the path |
//! | `draw_log` | that of `sal_draw_log` |
//!
//! The heads of the crates with the other calls state their costs.
#![tactic(auto)]

mod devices;
mod modules;
mod picture;
mod writes;

pub use devices::empty_device;
pub use devices::open_empty;
pub use modules::SchemaFault;
pub use modules::schema_of;
pub use picture::draw_log;
pub use sal_broker::Held;
pub use sal_broker::MAX_LOOKS;
pub use sal_broker::OPENING_NUMBER;
pub use sal_broker::Sal;
pub use sal_broker::Seat;
pub use sal_build::SchemaVersion;
pub use sal_build::build;
pub use sal_build::build_first;
pub use sal_build::build_on;
pub use sal_build::laws::what_is_read_is_readable;
pub use sal_data::DataFault;
pub use sal_data::fits_rows;
pub use sal_data::read_data;
pub use sal_data::write_data;
pub use sal_epoch::Mount;
pub use sal_epoch::mounts_of;
pub use sal_epoch::next_devices;
pub use sal_epoch::next_hub;
pub use sal_feed::Feed;
pub use sal_feed::Full;
pub use sal_feed::Invariant;
pub use sal_feed::NoInvariant;
pub use sal_feed::OfferSeat;
pub use sal_feed::TakeSeat;
pub use sal_follow::ExportFault;
pub use sal_follow::FollowFault;
pub use sal_follow::Follower;
pub use sal_follow::Frame;
pub use sal_follow::Front;
pub use sal_follow::NextFrame;
pub use sal_follow::export;
pub use sal_follow::export_kept;
pub use sal_follow::export_on;
pub use sal_follow::export_since;
pub use sal_follow::laws::places_count_bytes;
pub use sal_follow::snapshot_of;
pub use sal_history::Device;
pub use sal_history::Opening;
pub use sal_hub::CallId;
pub use sal_hub::Chain;
pub use sal_hub::Hub;
pub use sal_hub::ListenerId;
pub use sal_hub::MAX_ENTRIES;
pub use sal_hub::MAX_LISTENERS;
pub use sal_hub::MAX_PENDING;
pub use sal_hub::OpenFault;
pub use sal_hub::Receipt;
pub use sal_hub::Seen;
pub use sal_json::Patterns;
pub use sal_json::PatternsFault;
pub use sal_listen::Mirror;
pub use sal_listen::MirrorFault;
pub use sal_module::BuildFault;
pub use sal_module::What;
pub use sal_note::Note;
pub use sal_note::NoteList;
pub use sal_owner::Changes;
pub use sal_owner::Entity;
pub use sal_owner::Owned;
pub use sal_owner::OwnedList;
pub use sal_owner::OwnerBook;
pub use sal_owner::OwnerCall;
pub use sal_owner::OwnerChange;
pub use sal_owner::OwnerEntry;
pub use sal_owner::OwnerFault;
pub use sal_owner::OwnerLog;
pub use sal_owner::OwnerReply;
pub use sal_owner::OwnerSeat;
pub use sal_owner::Owners;
pub use sal_owner::OwnershipState;
pub use sal_owner::Standing;
pub use sal_pathtext::PathTextFault;
pub use sal_pathtext::read_path;
pub use sal_pathtext::write_path;
pub use sal_resume::follower_of;
pub use sal_resume::frames_by;
pub use sal_resume::frames_of;
pub use sal_resume::frames_on;
pub use sal_resume::frames_since;
pub use sal_resume::own_frames;
pub use sal_resume::own_snapshot;
pub use sal_resume::resume;
pub use sal_resume::snapshot_by;
pub use sal_resume::snapshot_of_newest;
pub use sal_rows::Act;
pub use sal_rows::Batch;
pub use sal_rows::Breach;
pub use sal_rows::CallFault;
pub use sal_rows::CandidateKind;
pub use sal_rows::Change;
pub use sal_rows::ChangeList;
pub use sal_rows::ClashKind;
pub use sal_rows::Mode;
pub use sal_rows::Op;
pub use sal_rows::Opened;
pub use sal_rows::Ops;
pub use sal_rows::OutOfOrder;
pub use sal_rows::Outcome;
pub use sal_rows::Part;
pub use sal_rows::Rows;
pub use sal_rows::Rule;
pub use sal_rows::Rules;
pub use sal_rpc::Request;
pub use sal_schema::Kind;
pub use sal_schema::Schema;
pub use sal_stmt::Stmt;
pub use sal_stmt::StmtFault;
pub use sal_stmt::read_module;
pub use sal_tx::Begun;
pub use sal_tx::ReadTx;
pub use sal_tx::Tx;
pub use sal_tx::TxFault;
pub use sal_tx::WriteTx;
pub use sal_types::Atom;
pub use sal_types::Bytes;
pub use sal_types::Cell;
pub use sal_types::Duplicate;
pub use sal_types::Keys;
pub use sal_types::MAX_STEPS;
pub use sal_types::NoMemory;
pub use sal_types::Path;
pub use sal_types::PathFault;
pub use sal_types::Row;
pub use sal_types::Seq;
pub use sal_types::Step;
pub use sal_types::Store;
pub use sal_types::Str;
pub use sal_types::Value;
pub use sal_update::Tries;
pub use sal_update::UpdateFault;
pub use sal_update::Work;
pub use sal_update::update;
pub use writes::is_for;
pub use writes::is_place;
