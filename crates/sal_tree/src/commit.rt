//! Both trees of a domain, and commits.
ghost use Rattle.std.specs.Prelude.{◌≡◌};
ghost use Rattle.sal_tree.specs.Stores.{tree_in};

use crate::root::Root;
use sal_rows::Op;
use sal_types::{Duplicate, NoMemory, Seq, Store};
use std::sync::Arc;

/// The two trees of a domain.
#[derive(Drop)]
pub struct Pair {
    pub config: Root,
    pub oper: Root,
}

/// The tree of the store.
pub fn tree_of(pair: &Pair, store: Store) -> &Root
    ensures { result.now ≡ tree_in pair.now store }
{
    match store {
        Store::Config => &pair.config,
        Store::Oper => &pair.oper,
    }
}

impl Duplicate for Pair {
    fn copy(&self) -> Result<Pair, NoMemory> {
        let config = self.config.copy()?;
        let oper = self.oper.copy()?;
        Ok(Pair { config, oper })
    }
}

/// A commit of a domain: its number, its receipt, the chain of its transaction, its operations, and the trees
/// after it.
///
/// Commit 0 is the opening: it has no chain and no operations. Its receipt is 0, or in a later epoch that of the last commit
/// of the epoch before.
#[derive(Drop)]
pub struct Commit {
    pub number: u64,
    pub receipt: u64,
    pub chain: Option<u64>,
    pub ops: Arc<Seq<Op>>,
    pub trees: Pair,
}
