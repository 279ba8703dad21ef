//! The common part of the examples: a domain with one number, and a client that counts in it.
//!
//! | item | what it is |
//! |---|---|
//! | `schema`, `device` | from YANG text to a domain without data |
//! | `Counter` | a leaf that a transaction reads and puts |
//! | `leaf_with`, `number_in` | a number as the rows of one leaf, and back |
//! | `count` | begin, read, put, submit and settle, `times` times, over a `Hub` of one thread |
//!
//! ```
//! let schema = Arc::new(alloc, schema(alloc)?)?;
//! let counter = Counter::at(alloc, &schema, LAST_NUMBER)?;
//! let devices = vec![in alloc; device(alloc, &schema)?]?;
//! let mut hub = Hub::open(alloc, devices, Rules::Two)?;
//! count(alloc, &mut hub, &counter, 3)?;
//! ```

mod counting;
mod domain;
mod leaf;

pub use counting::count;
pub use domain::{LAST_NUMBER, device, schema};
pub use leaf::{Counter, leaf_with, number_in};
