//! A domain at the end of a run.

use sal_tree::Pair;
use std::marker::Model;

/// A domain at the end of a run: its number, how many commits it has, and its trees. A contract sees the rows of the trees.
#[derive(Drop)]
pub struct DomainEnd<'a> {
    pub domain: u32,
    pub commits: u64,
    pub trees: &'a Pair,
}

impl<'a> Model for DomainEnd<'a> {
    ghost use Rattle.sal_script.specs.declared.trees.DomainTrees.{DomainTrees};
    ghost use Rattle.sal_script.specs.contracts.trees.DomainTrees as e;
    ghost use Rattle.sal_tree.specs.Rows.{rows_of};

    ghost Value = { DomainTrees };

    ghost coded = { e.the_row.coded };

    ghost view = { λ a. record { domain = a.domain; commits = a.commits; config = rows_of a.trees.now.config; oper = rows_of a.trees.now.oper } };
}
