//! Input and output of the data broker: sources and sinks, whose contracts count their faults and, where the bytes are
//! known, name the bytes.
//!
//! | type | what it is |
//! |---|---|
//! | `Source` | bytes to read; `read_all` reads it to its end |
//! | `Sink` | takes bytes; `write_all` writes a whole text |
//! | `MemSource`, `MemSink` | both in memory: their bytes are known, and they fail at given calls |
//! | `StdSource`, `StdSink` | over a reader and a writer of std; the bytes of standard input and output are not known |
//! | `Gate`, `OpenGate` | a client passes it before each step, and it changes no result; one that is always open |
//! | `Failed`, `ReadFail` | one call failed; why `read_all` has no bytes |
//!
//! A contract sees the bytes that a source still has and a sink has taken, where these are known, and a count of faults.
//! A call may return a fault only if that count rose, so no body can invent one. `specs/` has the definitions.
//!
//! ```
//! let mut source = StdSource::new(rt.stdin());
//! let text = read_all(rt.alloc(), &mut source, 1_000_000)?;
//! let mut sink = StdSink::new(rt.stdout());
//! write_all(&mut sink, &text)?;
//! ```
//!
//! Costs: `read_all` is linear in the bytes and reads them in place, in pieces of up to 64 KiB; if the source has more than
//! the limit, it takes one byte beyond it. `write_all` takes no memory.
#![tactic(auto)]

pub mod fault;
pub mod gate;
pub mod laws;
pub mod memory;
pub mod sink;
pub mod source;
pub mod standard;

pub use fault::{Failed, ReadFail};
pub use gate::{Gate, OpenGate};
pub use memory::{MemSink, MemSource};
pub use sink::{Sink, write_all};
pub use source::{Source, read_all};
pub use standard::{StdSink, StdSource};
