//! Outcomes, rules and breaches as text, for the messages of errors. Nodes are numbers here, since only a schema has their names.
use crate::outcome::{Breach, ClashKind, Outcome, Rule};
use std::fmt;

impl fmt::Display for ClashKind {
    fn fmt<W: fmt::Write>(&self, f: &mut fmt::Formatter<W>) -> fmt::Result {
        match self {
            ClashKind::Changed => f.write_str("changed"),
            ClashKind::Created => f.write_str("created"),
            ClashKind::Deleted => f.write_str("deleted"),
        }
    }
}

impl fmt::Display for Rule {
    fn fmt<W: fmt::Write>(&self, f: &mut fmt::Formatter<W>) -> fmt::Result {
        match self {
            Rule::Mandatory(node) => write!(f, "mandatory of node {node}"),
            Rule::MinElements(node) => write!(f, "min-elements of node {node}"),
            Rule::MaxElements(node) => write!(f, "max-elements of node {node}"),
            Rule::Unique(node) => write!(f, "unique of node {node}"),
            Rule::TwoCases(node) => write!(f, "two cases of choice {node}"),
        }
    }
}

impl fmt::Display for Breach {
    fn fmt<W: fmt::Write>(&self, f: &mut fmt::Formatter<W>) -> fmt::Result {
        write!(f, "{} at {}", self.rule, self.path)
    }
}

impl fmt::Display for Outcome {
    fn fmt<W: fmt::Write>(&self, f: &mut fmt::Formatter<W>) -> fmt::Result {
        match self {
            Outcome::Done { commit } => write!(f, "done as commit {commit}"),
            Outcome::Conflict {
                store,
                path,
                kind,
                commit,
            } => write!(
                f,
                "conflict with commit {commit}: {path} in the {store} tree was {kind}"
            ),
            Outcome::Invalid { store, path, rule } => write!(
                f,
                "the {store} tree would break {rule} at {path}"
            ),
            Outcome::ChainFailed { receipt } => write!(f, "the chain failed at receipt {receipt}"),
            Outcome::Unmounted { domain } => write!(f, "domain {domain} was unmounted"),
        }
    }
}
