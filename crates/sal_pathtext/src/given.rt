//! The values in predicates.
use sal_types::Value;

/// A key leaf or leaf-list, and the value that a predicate gives it.
#[derive(Drop)]
pub(crate) struct Given {
    pub(crate) leaf: u32,
    pub(crate) value: Value,
}
