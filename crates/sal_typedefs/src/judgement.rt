//! The result of evaluating a type statement.

use crate::entry::Entry;
use sal_module::Found;
use sal_restrict::YangType;

/// The least fault of a type statement and of those that it depends on, and its type and names if there is none.
#[derive(Drop)]
pub(crate) struct Judgement {
    pub(crate) fault: Option<Found>,
    pub(crate) ty: YangType,
    pub(crate) entries: Vec<Entry>,
}

/// The type that a statement restricts, with the numbers of its names, and whether it is the built-in type itself.
#[derive(Drop)]
pub(crate) struct Basis {
    pub(crate) ty: YangType,
    pub(crate) entries: Vec<Entry>,
    pub(crate) itself: bool,
}
