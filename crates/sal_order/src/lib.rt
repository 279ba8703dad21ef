//! The order on the first line of a report, and where two texts differ.
//!
//! | call | what it is |
//! |---|---|
//! | `first_order` | the order on a text's first line, or none if the line has another form |
//! | `difference` | the number of whole lines that two texts have in common, or none if they are equal |
//!
//! `laws` states both without a parser: which lines have an order, and that a difference follows the longest common prefix.
//!
//! ```
//! let order = first_order(alloc, b"order 0 1 0\n0 0 begun 0\n")?;
//! // 0 1 0
//! let line = difference(b"a\nb\n", b"a\nc\n");
//! // 1
//! ```
//!
//! Cost: both are linear in the text. `first_order` writes the line once more, and so takes its length and four bytes for each number.
#![tactic(auto)]

pub mod differing;
pub mod examples;
pub mod first_line;
pub mod laws;

pub use differing::difference;
pub use first_line::first_order;
