//! The next epoch of a domain.
ghost use Rattle.std.specs.Prelude.{◌≡◌, ◌-◌, ◌≤◌, ◌∷◌, [], drop, length};
ghost use Rattle.sal_history.specs.World.{version_from};
ghost use Rattle.sal_graft.specs.Kept.{AreKept};
ghost use Rattle.sal_commit.specs.Anew.{BeginsAnew, begun_anew};
ghost use Rattle.sal_commit.specs.Versions.{tables_of};

use crate::domain::Domain;
use sal_rows::Rules;
use sal_schema::Schema;
use sal_tree::Commit;
use std::sync::Arc;

impl Domain {
    /// Begins the next epoch in place, under the version rules: the newest trees are the opening, with their nodes and stamps, and the
    /// present version of the schema is version 0. All earlier commits are dropped. It copies no node, makes no check and takes no memory.
    pub fn begin_anew(&mut self, rules: Rules)
        requires { AreKept self.old.commits.items }
        ensures { BeginsAnew self.old rules self.new }
    {
        keep_newest(&mut self.commits);
        drop_versions(&mut self.first, &mut self.upgrades, self.version);
        self.live = self.number == 0;
        self.version = 0;
        self.since = 0;
        self.rules = rules;
    }
}

// Keeps only the opening, with the trees and the receipt of the newest commit.
fn keep_newest(commits: &mut Vec<Commit>)
    ensures { commits.new.items ≡ begun_anew commits.old.items }
{
    if commits.len() < 2 {
        return;
    }
    let newest = commits.pop().unwrap();
    let opening = &mut commits[0];
    opening.receipt = newest.receipt;
    opening.trees = newest.trees;
    commits.truncate(1);
}

// The version becomes the first one: those before it are dropped.
fn drop_versions(first: &mut Arc<Schema>, upgrades: &mut Vec<Arc<Schema>>, version: u32)
    ensures first { first.new.value ≡ version_from first.old.value (tables_of upgrades.old.items) version }
    ensures upgrades { tables_of upgrades.new.items ≡ drop version (tables_of upgrades.old.items) }
{
    for _ in 0..version {
        drop_first(first, upgrades);
    }
}

// The next version, if there is one, becomes the first one.
fn drop_first(first: &mut Arc<Schema>, upgrades: &mut Vec<Arc<Schema>>)
    ensures first { first.new.value ≡ version_from first.old.value (tables_of upgrades.old.items) 1 }
    ensures upgrades { tables_of upgrades.new.items ≡ drop 1 (tables_of upgrades.old.items) }
{
    if upgrades.is_empty() {
        return;
    }
    *first = upgrades.remove(0);
}
