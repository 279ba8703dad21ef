//! All that the data broker's command does: the top call `mdsal` over any source, sink and gate.
//!
//! | module | what it has |
//! |---|---|
//! | `top` | the top call `mdsal`, with the texts of its help and its version |
//! | `words` | the forms of the command line |
//! | `texts` | the texts that depend on the input alone |
//! | `played` | the report of a script: run, or played in its order |
//! | `summed` | the summary of a load, as text |
//! | `loaded` | a load: from its two numbers to its summary |
//!
//! `sal_prepare` prepares the script, `sal_run` runs it over the broker or `sal_client` plays it over a hub, and `sal_report` writes the report.
//! `sal_owner_script` reads, plays and reports the steps of `owner`. `sal_follow_script` exports and follows frames, `sal_feed_script` passes
//! notifications between threads, `sal_picture` draws pictures, `sal_audit` audits reports, and `sal_lint_script` says what is refused and ignored.
#![tactic(auto)]

mod loaded;
mod played;
mod summed;
mod texts;
pub mod top;
pub mod words;
