//! The trees of a domain at the end of a run.
use sal_rows::Rows;

/// The trees of a domain, and its number of commits.
#[derive(Drop)]
pub struct DomainTrees {
    pub domain: u32,
    pub commits: u64,
    pub config: Rows,
    pub oper: Rows,
}
