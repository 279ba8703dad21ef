//! From a script, or a script and a report, to the picture of how its clients affect each other.
//!
//! | item | what it is |
//! |---|---|
//! | `draw_text` | the picture of a script, as Scalable Vector Graphics, or the status of its first fault |
//! | `made_of` | the commits of a hub by their receipts |
//!
//! ```
//! let text = draw_text(alloc, bytes, Range { from: 0, to: 1000000 })?;
//! ```
//!
//! Cost: that of the play and of the report, and that of `sal_shapes` for its rows.
#![tactic(auto)]

pub mod made;
mod order;
pub mod script;

pub use made::made_of;
pub use script::draw_text;
