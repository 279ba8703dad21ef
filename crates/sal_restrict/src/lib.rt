//! The types of leafs: which values they have (RFC 7950 section 9), with numbers and lengths restricted to ranges.
//!
//! | item | what it is |
//! |---|---|
//! | `YangType` | a type with its restrictions |
//! | `Ranges`, `Part` | ascending, disjoint parts of the whole numbers; one part, from its lowest to its highest number |
//! | `Pattern` | the text of a pattern, and whether values must not match it |
//! | `whole_text` | the pattern that requires a match of the whole text |
//! | `read_ranges` | the range of a text within another range, which it may only narrow |
//! | `RangeFault` | why a text is not a range |
//! | `decimal`, `is_digits`, `small` | the value of digits, whether a text is digits, and a number with its sign |
//! | `front`, `behind` | the first bytes of a text, and those after them |
//!
//! A contract sees `Ranges` as the list of its parts. `specs/RangeTexts.antt` defines the meaning of a text: it is split at
//! `|` and `..`, and each bound is a number of any magnitude. `specs/Ranges.antt` defines which numbers ranges contain.
//!
//! ```
//! let mut list = Vec::new(alloc);
//! list.push(Part { low: 1, high: 4096 })?;
//! let ports = Ranges::from_items(list);
//! let some = read_ranges(alloc, "min..4 | 10..20", &ports, 0)?; // 1 to 4, and 10 to 20
//! read_ranges(alloc, "0..5", &ports, 0);                        // Err(Wider)
//! ```
//!
//! Costs: `read_ranges` takes time and memory linear in the text and in the parts of the outer range;
//! `holds`, a comparison and a copy are linear in the parts, and a copy of a type in its size. Unions may be
//! nested: the recursion of a copy is as deep as the nesting.
#![tactic(auto)]

mod bound;
mod covers;
mod decimals;
mod fault;
mod range_text;
mod ranges;
mod span;
mod vectors;
mod whole_texts;
mod words;
mod yang_type;

pub use decimals::{decimal, is_digits, small};
pub use fault::RangeFault;
pub use range_text::read_ranges;
pub use ranges::{Part, Ranges};
pub use whole_texts::whole_text;
pub use words::{behind, front};
pub use yang_type::{Pattern, YangType};
