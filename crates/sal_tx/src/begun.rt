//! How a transaction began.
use sal_schema::Schema;
use std::sync::Arc;

/// How a transaction began: in which domain, at which commit, and with which version of its schema.
#[derive(Drop)]
pub struct Begun {
    pub domain: u32,
    pub base_commit: u64,
    /// The pending receipt that it follows, if any.
    pub on: Option<u64>,
    /// Its chain.
    pub chain: Option<u64>,
    /// The index of the entry of the log that began it.
    pub place: u64,
    /// The number of the version of its domain's schema at that time.
    pub version: u32,
    /// That version.
    pub schema: Arc<Schema>,
}
