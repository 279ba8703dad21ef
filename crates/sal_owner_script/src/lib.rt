//! `owner` of the command: steps of clients that agree on owners of entities, from JSON, and the text of their replies.
//!
//! | type or call | what it is |
//! |---|---|
//! | `OwnerStep` | a call of a client: register, unregister, state, watch or changes |
//! | `read_steps` | the steps that bytes denote, or the first bad input |
//! | `steps_text` | the text of the replies to steps, made in their order over one `OwnerBook` of `sal_owner` |
//! | `owner_text` | both: from bytes to the text, or the first bad input |
//!
//! The input is one JSON array of at most 60,000 steps. A step is an array of a client number from 0 to 15, a word, and its texts:
//! `register`, `unregister` and `state` have a kind and an id, `watch` has a kind, `changes` has none. The first bad input is
//! `json`, `script`, or the number of the first step of another form. The output has a line for each step, its number and its reply.
//!
//! `specs/Steps` defines which steps bytes denote, and `specs/Replies` their text: the replies that the definitions of
//! `sal_owner` give for these calls in this order. `examples` has worked examples from bytes to bytes, each proved by computing it.
//! One thread makes all calls. No clause says how a program with several threads orders them; `Owners` of `sal_owner` does.
//!
//! ```
//! let text = owner_text(alloc, br#"[[0,"watch","sw"],[1,"register","sw","s1"],[0,"changes"]]"#)?;
//! // 0 watching []
//! // 1 ok
//! // 2 changes [["sw","s1",false,false,true]]
//! ```
//!
//! Cost: time is linear in the bytes and in the text, in addition to the calls of `OwnerBook`. Each text of the input is copied into its step and
//! from there into the book. In addition to the growing output there is one reply at a time. Hostile input is refused with its place,
//! and the JSON reader bounds its nesting.
#![tactic(auto)]

mod arrays;
pub mod examples;
mod pieces;
pub mod play;
pub mod read;
mod replies;
pub mod step;

pub use play::{owner_text, steps_text};
pub use read::{MAX_STEPS, read_steps};
pub use step::OwnerStep;
