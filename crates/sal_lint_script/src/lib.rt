//! `lint` of the command: what is said of a script for people, and its status.
//!
//! | call | what it is |
//! |---|---|
//! | `lint` | the lines of all modules of a script; and if it cannot be played, the line of the status of `run` with the line and column of the fault |
//!
//! `specs/Linted` defines the text and the status, over the lines of `sal_lint` and the scripts of `sal_prepare`.
//!
//! ```
//! let linted = lint(alloc, br#"{"modules":["module m {\n anydata x;\n}"]}"#)?;
//! // device 0 module 0 line 2 column 2: refused: anydata x;
//! // bad schema 0 build missing 0 0 namespace
//! // device 0 module 0 line 1 column 1: fault: module m {
//! ```
//!
//! Cost: the script is read and prepared once, and read once more; its modules are read once more. Linear in the script beside the cost of `prepare`.
#![tactic(auto)]

mod said;
mod texts;

pub use said::{Linted, lint};
