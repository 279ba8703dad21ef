//! YANG text, read into a tree of statements: the lexical and statement rules of RFC 7950 section 6 only.
//!
//! | item | what it is |
//! |---|---|
//! | `read_module` | the one statement of a text, or the first fault in it |
//! | `Stmt` | a statement: keyword, argument, byte offset, and the statements of its block |
//! | `StmtFault` | the six faults, five of them with their byte offset |
//! | `is_identifier`, `is_keyword` | the two forms of a name: `leaf`, and `leaf` or `ext:leaf` |
//!
//! Which statements may appear where, and which arguments they may have, is checked in `sal_module`.
//!
//! ```
//! let stmt = read_module(alloc, "module m { namespace 'urn:' + \"m\"; prefix p; }")?;
//! // keyword `module`, argument `m`, at 0, with two statements at 11 and 33
//! ```
//!
//! `specs/Text.antt` defines the reader, from separators to the one statement of a text; `specs/Quoted.antt` defines the
//! lines, the indentation and the escapes of a string in double quotes. `specs/Spelling.antt` is the grammar, which does
//! not mention the reader. `laws.rt`: the reader reads a text as a statement exactly if the grammar derives that statement
//! from it, so a text has at most one.
//!
//! Choices of this reader: control characters other than tab, CR and LF are faults everywhere; a backslash before any
//! byte but `n`, `t`, `"` and `\` is a fault; CR LF is read as LF in a string in double quotes; a tab before a quote
//! counts as eight columns; separators are required only between two tokens that would join, so `x"a";` is `x "a";`.
//!
//! Cost: linear in the text, whatever its shape, and one allocation or a few for each statement and string. Recursion is at
//! most 65 calls deep, since no more than 64 blocks may be open. A text has fewer than 2^32 bytes.
#![tactic(auto)]

mod bytes;
mod fault;
mod laws;
mod quoted;
mod reader;
mod source;
mod stmt;
mod vectors;

pub use bytes::{is_identifier, is_keyword};
pub use fault::StmtFault;
pub use reader::read_module;
pub use stmt::Stmt;
