//! The types of `type` statements: built-in types, typedefs, and their restrictions (RFC 7950 sections 7.3, 7.4 and 9).
//!
//! | item | what it is |
//! |---|---|
//! | `Typedefs` | modules with indexes of their typedefs and identities by name, made once for all look-ups |
//! | `Tops` | the typedefs at the top of each module, judged once for all look-ups |
//! | `Scope` | the blocks around a statement, with their typedefs judged once |
//! | `name_fault_at` | the first fault of the names in a `type` statement inside the open blocks |
//! | `judge_at` | the type of such a statement, or the first fault of restrictions and patterns in it and in those that it depends on |
//! | `other_fault_at` | that fault alone |
//! | `leafrefs_at`, `Leafref` | the leafrefs among such a statement and those that it depends on |
//! | `path_names`, `count_up` | the names in a leafref's path, and how many steps it goes up before them |
//! | `between_slashes` | the parts of a text between its slashes |
//! | `is_malformed` | whether the grammar of `regex` accepts no pattern in a text |
//!
//! `specs/Types.antt` defines the type of a statement, or the first fault in it and in those that it depends on.
//! Names are checked first (`specs/Names.antt`), then restrictions and patterns (`specs/Restrictions.antt`), with the
//! numbers of enumerations and bits in `specs/Entries.antt`. Each typedef is settled (`specs/Settled.antt`): its type is judged once,
//! in an order in which it comes after those that it names (`src/ordering.rt`), and what names it shares the result. Ranks show that a
//! typedef does not depend on itself (`src/ranks.rt`). Where a typedef is not settled, as in a cycle, the code lists a statement and those
//! that it depends on (`src/walk.rt`), and evaluates them from the last to the first (`src/evaluate.rt`).
//!
//! ```
//! // module m { namespace u; prefix p; typedef t { type uint8 { range 1..9; } } leaf a { type t; } }
//! let typedefs = Typedefs::new(alloc, &modules)?;
//! let tops = Tops::read(alloc, &typedefs)?;
//! let mut scope = tops.scope(0);
//! scope.enter(module)?;
//! scope.enter(leaf)?;
//! // where `module` is the statement of m, `leaf` that of its leaf, and `ty` the type statement in it
//! name_fault_at(&scope, ty)?; // None
//! judge_at(&scope, ty)?;      // None, and uint8 from 1 to 9
//! path_names(alloc, "../p:a[k = current()/../b]/c")?;       // p:a and c
//! is_malformed(alloc, "a)|(?:b")?;                          // false: all of the text is put into one group
//! ```
//!
//! Cost: `is_malformed` compiles the pattern, as `regex` does. `Typedefs::new` is linear in the statements, with the logarithm of the
//! names for each, and `path_names` in the text. `Tops::read`, `Tops::build` and `Scope::enter` judge each typedef once. The calls for a
//! statement take the time of its own names and restrictions: what it names is shared, and a statement that is only the name of a typedef
//! copies nothing. A type that restricts another copies its names and patterns, and a union the members of unions in it. Leafrefs are
//! looked for among all that a type depends on, where there is one. If the names have a fault, these calls may take exponential time: for
//! a union that names one typedef twice in a cycle, only the number of statements bounds the search.
#![tactic(auto)]

mod basis;
mod below;
mod block;
mod builtin;
mod circle;
mod count;
mod entries;
mod entry;
mod evaluate;
mod identities;
mod judge;
mod judgement;
mod judging;
mod kept;
mod layer;
mod leafrefs;
mod listing;
mod meaning;
mod merging;
mod name;
mod names;
mod narrowing;
mod numbering;
mod opening;
mod ordering;
mod path;
mod pattern;
mod ranks;
mod restriction;
mod scope;
mod site_judge;
mod spot;
mod tally;
mod tops;
mod typedefs;
mod vectors;
mod walk;
mod whole;

pub use evaluate::{judge_at, other_fault_at};
pub use leafrefs::{Leafref, leafrefs_at};
pub use names::name_fault_at;
pub use path::{between_slashes, count_up, path_names};
pub use pattern::is_malformed;
pub use scope::Scope;
pub use tops::Tops;
pub use typedefs::Typedefs;
