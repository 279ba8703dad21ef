//! JSON values of texts (RFC 8259): each name occurs once in its object, and strings are bytes.
//!
//! | item | what it is |
//! |---|---|
//! | `specs/Json` | `IsJson`, the definition of such a value, and `is_json`, the same as a test |
//! | `specs/Laws` | the statements of `laws` |
//! | `laws` | functions that do nothing, each with laws of the definitions as its contract |
//!
//! Every value that `serde_json` reads from bytes is such a value, and so are its members and elements. So a reader
//! of data needs no test if the value came from a text. A value that a program made is one if each name occurs once
//! in its object.
//!
//! ```
//! laws::what_is_read_is_json();
//! ```
//!
//! Cost: none; the crate has no code that does anything.
#![tactic(auto)]

pub mod laws;
