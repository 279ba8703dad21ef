//! Modules of the profile with their imports: the first check between texts and a schema.
//!
//! | item | what it is |
//! |---|---|
//! | `check` | the modules, if they are within the profile and their imports name modules, or the first fault |
//! | `check_owned` | the same for statements that the modules then own |
//! | `Modules` | checked modules, seen as the list of their statements, with look-ups by offset and by prefix |
//! | `BuildFault` | every fault of building a schema from modules, with its module and offset |
//! | `Cause`, `Found`, `better` | the kind of a fault, a fault with its place, and the first of two faults: for the later passes |
//! | `Keyword`, `keyword_of` | the keywords of the profile, and their spellings |
//! | `TABLE`, `Rule`, `Row`, `Entry`, `Often`, `Form` | the profile itself: the substatements that each statement may have |
//! | `reaching`, `is_marked` | which items of a list reach a target, if each names some of the others |
//! | `is_named`, `argument_of`, `first_named`, `has_named`, `value_of` | statements by their keywords |
//!
//! The profile is the part of YANG (RFC 7950) that the broker supports: `src/table.rt` is its table, in the order of the
//! standard. Submodules, deviations, actions, `anydata`, `anyxml` and a few more are not in it. Statements with a prefix
//! may be anywhere and have no effect. A pass collects its faults in one list, in any order, and returns the least
//! by module, offset and number: `specs/Profile.antt` has the lists of the profile, `specs/Imports.antt` those of
//! names and imports, `specs/Faults.antt` the order.
//!
//! ```
//! let module = read_module(alloc, "module m { namespace 'urn:m'; prefix p; leaf a { type string; } }")?;
//! let modules = check(alloc, &[module])?;
//! let leaf = modules.stmt(0, 40);      // the statement that begins at byte 40 of module 0
//! let own = modules.imported(0, "p");  // Some(0)
//! ```
//!
//! Cost: both checks take time linear in the statements, times the size of the table, and the logarithm of the imports for
//! each import; `check` copies the statements. 64 modules are compared with one another 64 times. `Modules::stmt` takes the
//! logarithm of the statements for each level, and `Modules::imported` that of the imports. Recursion is at most 65 calls
//! deep.
#![tactic(auto)]

mod argument;
mod fault;
mod imports;
mod keyword;
mod left_out;
mod modules;
mod places;
mod prefixes;
mod profile;
mod reach;
mod statement;
mod table;
mod vectors;

pub use argument::{Form, has_form, is_whole};
pub use fault::{BuildFault, Cause, Found, What, better};
pub use keyword::{Keyword, WORDS, keyword_of};
pub use modules::{Modules, check, check_owned};
pub use reach::{is_marked, reaching};
pub use statement::{argument_of, first_named, has_named, is_named, value_of};
pub use table::{Entry, LEFT_OUT, Often, Row, Rule, TABLE};
