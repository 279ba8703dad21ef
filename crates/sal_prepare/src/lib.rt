//! From the bytes of a script to its hub and readers, or the status of the first fault.
//!
//! | module | what it has |
//! |---|---|
//! | `scripted` | `prepare`: a script's parts with the status of its first fault, up to its hub |
//! | `domains`, `openings` | the schemas of the controller's own domain and of the devices, with their readers; their opening trees |
//! | `resumed` | a script whose domains begin with the trees of followers: `ground_of`, `Ground::resume`, `resume_with` |
//! | `own_schema` | the last version of the schema of domain 0 alone, with its patterns |
//! | `parted` | an input of two parts, divided by its first zero byte |
//! | `plays` | the result of a played script: its report, the trees at the end, the status of a failure |
//! | `status` | how the command ends |
//! | `laws` | the worlds of scripts are sound; a load's own script is always a script |
//!
//! The script is read by `sal_script`, and its modules are built by `sal_versions`.
#![tactic(auto)]

mod domains;
mod given;
pub mod laws;
mod openings;
pub mod own_schema;
pub mod parted;
pub mod plays;
pub mod resumed;
pub mod scripted;
pub mod status;
