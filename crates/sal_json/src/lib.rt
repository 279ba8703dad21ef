//! Scalars: the values of leafs as JSON values and as key texts, both ways (RFC 7951 section 6).
//!
//! | item | what it is |
//! |---|---|
//! | `read_scalar`, `write_scalar` | the value that a JSON value denotes in a type; the JSON value of a value |
//! | `read_text`, `write_text` | the same for the text of a key |
//! | `Patterns` | the patterns of a schema, compiled |
//! | `ScalarFault`, `PatternsFault` | why there is no value, or there are no patterns |
//! | `laws` | functions that do nothing, each with laws of the definitions as its contract |
//!
//! `specs/Read` defines which value a JSON value or a text denotes, with `Numerals`, `Named` and `Patterns` for numbers, names
//! and patterns. `specs/Written` defines the one spelling of each value. The readers and writers return what these
//! definitions give, unless memory runs out. A value that was read is of its type, and what is written for it reads as it again
//! (`laws`).
//!
//! ```
//! let patterns = Patterns::of(alloc, &schema)?;
//! let value = read_scalar(alloc, &schema, &patterns, ty, module, &json)?;
//! let json = write_scalar(alloc, &schema, ty, module, &value)?;
//! ```
//!
//! Costs: reading and writing are linear in the text. A name is looked for among those of its type, one after another, and an
//! identity by binary search. A string costs what `regex` takes to search it for each pattern, and a union what its members cost
//! up to the one that takes the value.
#![tactic(auto)]

mod examples;
mod fault;
mod json_read;
pub mod laws;
mod named;
mod numerals;
mod patterns;
mod plain_type;
mod read;
mod texts;
mod texts_read;
mod whole;
mod write;
mod written;

pub use fault::{PatternsFault, ScalarFault};
pub use patterns::Patterns;
pub use read::{read_scalar, read_text};
pub use write::{write_scalar, write_text};
