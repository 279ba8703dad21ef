//! The state of a domain before the first commit.
use sal_rows::Rows;
use sal_schema::Schema;
use std::sync::Arc;

/// The opening trees of a domain.
#[derive(Drop)]
pub struct Opening {
    pub config: Rows,
    pub oper: Rows,
}

/// A domain before the first commit: version 0 of its schema, the versions after it in order, and its opening trees, which
/// are read by version 0. Only the first device of a world may have more than one version.
#[derive(Drop)]
pub struct Device {
    pub schema: Arc<Schema>,
    pub upgrades: Vec<Arc<Schema>>,
    pub opening: Opening,
}
