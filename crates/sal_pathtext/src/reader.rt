//! A reader of a path text, step by step.
ghost use Rattle.std.specs.Prelude.{◌≡◌, ◌≤◌, ◌<◌, [], length, string_bytes, if◌then◌else◌, Err, IfOk};
ghost use Rattle.sal_types.specs.declared.value.Step.TheVariants.{Node};
ghost use Rattle.sal_json.specs.Patterns.{patterns_of};
ghost use Rattle.sal_pathtext.specs.Nodes.{value_of as value_there, entry_given as entry_there};
ghost use Rattle.sal_pathtext.specs.Read as spec;
ghost use Rattle.sal_pathtext.specs.Read.{Gives};
ghost use Rattle.sal_pathtext.specs.Words.{place as place_in, first as first_of};

use crate::fault::PathTextFault;
use crate::given::Given;
use crate::here::Here;
use crate::nodes::{dot_meant, entry_given, key_meant, meant, not_given, value_of};
use crate::words::{after_blanks, bad_text, closed, first, name, place, said};
use sal_json::{Patterns, ScalarFault};
use sal_schema::Schema;
use sal_schema::lookups::{has_entries, is_list};
use sal_types::{NoMemory, Step, Value, tail};
use std::alloc::Global;

/// The whole text, and the input for reading its names and values.
#[derive(Drop)]
pub(crate) struct Reader<'a> {
    pub(crate) alloc: Global,
    pub(crate) schema: &'a Schema,
    pub(crate) patterns: &'a Patterns,
    pub(crate) text: &'a str,
    ghost compiled: { patterns.now ≡ patterns_of schema.now },
}

impl<'a> Reader<'a> {
    pub(crate) fn new(
        alloc: Global,
        schema: &'a Schema,
        patterns: &'a Patterns,
        text: &'a str,
    ) -> Self
        requires { patterns.now ≡ patterns_of schema.now }
        ensures text { result.text.now ≡ text.entry.now }
        ensures schema { result.schema.now ≡ schema.entry.now }
    {
        Reader {
            alloc,
            schema,
            patterns,
            text,
        }
    }

    fn bad_predicate(&self, s: &str) -> PathTextFault
        ensures { result ≡ PathTextFault.BadPredicate (place_in self.now.text.now s.now) }
    {
        PathTextFault::BadPredicate {
            at: place(self.text, s),
        }
    }

    /// The leaf of this list or leaf-list that a predicate names.
    #[tactic(auto, unfolding(crate::specs::Read::subject))]
    fn subject<'s>(&self, node: u32, s: &'s str) -> Result<(Option<u32>, &'s str), PathTextFault>
        ensures value { Gives (λ p. (p.0, p.1.now)) result (spec.subject self.now.schema.now self.now.text.now node s.now) }
        ensures within { IfOk result (λ p. length p.1.now ≤ length s.now) }
    {
        if first(s) == b'.' {
            return Ok((dot_meant(self.schema, node), tail(s, 1)));
        }
        let (module, key, after) = name(self.text, s)?;
        Ok((key_meant(self.schema, node, module, key), after))
    }

    /// The value that a text denotes. `at` is the offset of its predicate.
    fn taken(&self, at: usize, leaf: u32, text: String) -> Result<Value, PathTextFault>
        ensures { Gives (λ value. value) result (spec.taken at (value_there self.now.schema.now leaf (string_bytes text))) }
    {
        match value_of(self.alloc, self.schema, self.patterns, leaf, text.as_str()) {
            Ok(value) => Ok(value),
            Err(ScalarFault::NoMemory) => Err(PathTextFault::NoMemory),
            Err(_) => Err(PathTextFault::BadPredicate { at }),
        }
    }

    /// A predicate, at its `[`, after those that gave these values.
    #[tactic(auto, unfolding(crate::specs::Read::predicate))]
    fn predicate<'s>(
        &self,
        node: u32,
        given: &[Given],
        s: &'s str,
    ) -> Result<(Given, &'s str), PathTextFault>
        requires { first_of s.now ≡ 91 }
        ensures value { Gives (λ p. (p.0, p.1.now)) result (spec.predicate self.now.schema.now self.now.text.now node given.now s.now) }
        ensures shorter { IfOk result (λ p. length p.1.now < length s.now) }
    {
        let at = place(self.text, s);
        let (named, after) = self.subject(node, after_blanks(tail(s, 1)))?;
        let Some(leaf) = not_given(given, named) else {
            return Err(PathTextFault::BadPredicate { at });
        };
        let (text, rest) = said(self.alloc, self.text, after)?;
        match self.taken(at, leaf, text) {
            Ok(value) => match closed(self.text, rest) {
                Ok(end) => Ok((Given { leaf, value }, end)),
                Err(fault) => Err(fault),
            },
            Err(fault) => Err(fault),
        }
    }

    /// All predicates from here on.
    fn predicates<'s>(&self, node: u32, s: &'s str) -> Result<(Vec<Given>, &'s str), PathTextFault>
        ensures value { Gives (λ p. (p.0.items, p.1.now)) result (spec.predicates self.now.schema.now self.now.text.now (length s.now) node [] s.now) }
        ensures within { IfOk result (λ p. length p.1.now ≤ length s.now) }
    {
        let mut given = Vec::new(self.alloc);
        let rest = self.add_predicates(node, s, &mut given)?;
        Ok((given, rest))
    }

    /// All predicates from here on, after those that gave these values.
    fn add_predicates<'s>(
        &self,
        node: u32,
        s: &'s str,
        given: &mut Vec<Given>,
    ) -> Result<&'s str, PathTextFault>
        ensures value { Gives (λ r. (given.new.items, r.now)) result (spec.predicates self.now.schema.now self.now.text.now (length s.now) node given.old.items s.now) }
        ensures within { IfOk result (λ r. length r.now ≤ length s.now) }
    {
        let mut rest = s;
        'predicates: while first(rest) == b'[' {
            match self.predicate(node, given, rest) {
                Ok((one, after)) => {
                    given.push(one)?;
                    rest = after;
                }
                Err(fault) => return Err(fault),
            }
        }
        Ok(rest)
    }

    /// Whether the name of a list was read, and no keys of it.
    fn lacks_keys(&self, here: Here) -> bool
        ensures { result ≡ spec.lacks_keys self.now.schema.now here }
    {
        match here.node {
            Some(node) => here.wants_entry && is_list(self.schema, node),
            None => false,
        }
    }

    /// A name, after its slash: its node, and the position of the reader.
    #[tactic(auto, unfolding(crate::specs::Read::named))]
    fn named<'s>(&self, here: Here, s: &'s str) -> Result<(u32, Here, &'s str), PathTextFault>
        ensures value { Gives (λ p. (Node p.0, p.1, p.2.now)) result (spec.named self.now.schema.now self.now.text.now here s.now) }
        ensures within { IfOk result (λ p. length p.2.now ≤ length s.now) }
    {
        let (module, own, after) = name(self.text, s)?;
        if self.lacks_keys(here) {
            return Err(PathTextFault::BadPredicate { at: here.name_at });
        }
        let at = place(self.text, s);
        let Some(node) = meant(self.schema, here.node, module, own) else {
            return Err(PathTextFault::UnknownNode { at });
        };
        let next = Here {
            node: Some(node),
            wants_entry: has_entries(self.schema, node),
            name_at: at,
        };
        Ok((node, next, after))
    }

    /// The node of the entry of a predicate, at its `[`.
    fn owner(&self, here: Here, s: &str) -> Result<u32, PathTextFault>
        ensures { result ≡ (if here.wants_entry then spec.found (PathTextFault.BadPredicate (place_in self.now.text.now s.now)) here.node else Err (PathTextFault.BadPredicate (place_in self.now.text.now s.now))) }
    {
        match here.node {
            Some(node) if here.wants_entry => Ok(node),
            _ => Err(self.bad_predicate(s)),
        }
    }

    /// The step to the entry with these values, unless one is missing.
    fn entry_of(&self, node: u32, given: Vec<Given>) -> Result<Option<Step>, NoMemory>
        ensures { IfOk result (λ step. step ≡ entry_there self.now.schema.now node given.items) }
    {
        let step = entry_given(self.alloc, self.schema, node, &given)?;
        Ok(step)
    }

    /// The predicates of an entry, at the first `[`.
    #[tactic(auto, unfolding(crate::specs::Read::entered))]
    fn entered<'s>(&self, here: Here, s: &'s str) -> Result<(Step, Here, &'s str), PathTextFault>
        ensures value { Gives (λ p. (p.0, p.1, p.2.now)) result (spec.entered self.now.schema.now self.now.text.now here s.now) }
        ensures within { IfOk result (λ p. length p.2.now ≤ length s.now) }
    {
        let node = self.owner(here, s)?;
        let (given, rest) = self.predicates(node, s)?;
        let next = Here {
            node: here.node,
            wants_entry: false,
            name_at: here.name_at,
        };
        match self.entry_of(node, given) {
            Ok(Some(step)) => Ok((step, next, rest)),
            Ok(None) => Err(PathTextFault::BadPredicate { at: here.name_at }),
            Err(NoMemory) => Err(PathTextFault::NoMemory),
        }
    }

    /// One step; the remaining text has at least a byte.
    pub(crate) fn step<'s>(
        &self,
        here: Here,
        s: &'s str,
    ) -> Result<(Step, Here, &'s str), PathTextFault>
        ensures { Gives (λ p. (p.0, p.1, p.2.now)) result (spec.step self.now.schema.now self.now.text.now here s.now) }
    {
        let c = first(s);
        if c == b'[' {
            return self.entered(here, s);
        }
        if c != b'/' {
            return Err(bad_text(self.text, s));
        }
        match self.named(here, tail(s, 1)) {
            Ok((node, next, after)) => Ok((Step::Node(node), next, after)),
            Err(fault) => Err(fault),
        }
    }

    /// The fault of a text with more steps than a path may have.
    #[tactic(auto, unfolding(crate::specs::Read::one_more))]
    pub(crate) fn one_more(&self, here: Here, s: &str) -> PathTextFault
        ensures { (result ≡ PathTextFault.NoMemory → ⊥) → spec.one_more self.now.schema.now self.now.text.now here s.now ≡ Err result }
    {
        if first(s) == b'[' && here.wants_entry {
            return self.one_entry_more(here, s);
        }
        match self.step(here, s) {
            Ok(_) => PathTextFault::TooDeep,
            Err(fault) => fault,
        }
    }

    /// The fault of an entry for which there is no room: that of its first predicate, if it has one.
    fn one_entry_more(&self, here: Here, s: &str) -> PathTextFault
        requires { first_of s.now ≡ 91 }
        ensures { (result ≡ PathTextFault.NoMemory → ⊥) → spec.one_entry_more self.now.schema.now self.now.text.now here s.now ≡ Err result }
    {
        let Some(node) = here.node else {
            return self.bad_predicate(s);
        };
        match self.predicate(node, &[], s) {
            Ok(_) => PathTextFault::TooDeep,
            Err(fault) => fault,
        }
    }
}
