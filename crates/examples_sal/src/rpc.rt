//! One client of a data broker asks another one by an RPC, and gets its answer.
//!
//! A provider registers for the RPC `next-number`. A caller makes a request with a number. The provider takes the request and answers it with
//! the next number. The caller collects the answer. Each client has its own seat; both are on one thread here, and could be on two.
//!
//! | file | content |
//! |---|---|
//! | `service` | an RPC of a schema, and its data as rows |
//! | `talk` | provide, invoke, take the request, answer, collect |

mod service;
mod talk;

use std::sync::Wait;

/// Asks, and prints the answer.
pub(crate) fn show<R: Wait>(rt: &HostRuntime, runtime: &R) -> anyhow::Result<()> {
    let answer = talk::next_number(runtime, rt.alloc(), 41)?;
    println!(rt; "the number after 41 is {answer}")?;
    Ok(())
}
