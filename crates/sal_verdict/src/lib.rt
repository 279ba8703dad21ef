//! The verdict of an audit: whether a text is the report of a script, for the order on the text's own first line. Definitions and laws, and the
//! comparison with the report of that order.
//!
//! | item | what it is |
//! |---|---|
//! | `Verdict` | `Yes`, or `No` with the first line that differs |
//! | `judged` | the verdict on a text by the report of the order that it states |
//! | `line_of` | the line of a verdict |
//! | `laws` | the meaning of the verdict; no text has two; reports of `run` and `sim` get yes |
//! | `examples` | worked examples |
//!
//! `specs/Verdicts` has the definition, over the play and the report of `sal_script`. `sal_audit` finds the verdict.
//!
//! ```
//! let verdict = judged(b"order\ntree 0 1 {} {}\n", b"order\ntree 0 0 {} {}\n");
//! // Verdict::No { line: 1 }
//! ```
//!
//! Cost: one look at each byte of the common prefix of the two texts.
#![tactic(auto)]

pub mod examples;
pub mod laws;
pub mod verdict;

pub use verdict::{Verdict, judged, line_of};
