//! An audit: whether a text is the report of a script, for the order on the text's own first line.
//!
//! | item | what it is |
//! |---|---|
//! | `audit_text` | from a script, a zero byte and a report to the line `yes` or `no LINE`, or the status of the first fault |
//! | `audit` | the verdict on a report of a script that is prepared |
//! | `laws` | reports of `run` get yes |
//!
//! The script is played in the order on the report's first line, by the player of `sim`, and the report of that is written and compared. So a
//! yes says that the text is what the definitions of `sal_script` give for that order, and nothing about the program that wrote it. `sal_verdict` has
//! the definition of the verdict, and its laws.
//!
//! ```
//! let text = audit_text(alloc, input)?;
//! // no 8
//! ```
//!
//! Cost: that of `sim` for the script and its report, and one look at each byte of the text. The play is not freed, since the process ends
//! then: in a caller that continues, that memory stays allocated.
#![tactic(auto)]

mod audited;
pub mod laws;
mod replayed;

pub use audited::audit_text;
pub use replayed::audit;
