//! A text, seen as the list of its bytes.
ghost use Rattle.std.specs.Prelude.{◌≡◌, IfOk, nat_eq, refl};
ghost use Rattle.std.specs.Ordering.{nat_cmp, as_partial_cmp};
ghost use Rattle.std.specs.Cmp.Lexicographic.{slice_cmp, pointwise, texts_ties, texts_po, nat_list_cmp_total, nat_list_eq_equiv};
ghost use Rattle.std.specs.Cmp as laws_of;
ghost use Rattle.std.specs.String.{string_bytes};

use crate::memory::{Duplicate, NoMemory};
use std::alloc::Global;
use std::cmp::Ordering;
use std::marker::Model;

/// A text. Texts are ordered by their bytes.
#[derive(Debug)]
pub struct Str {
    text: String,
}

impl Drop for Str {
    fn drop(self) {
        let Str { text: _ } = self;
    }
}

impl Model for Str {
    ghost use Rattle.std.specs.Prelude.{List, ℕ};
    ghost use Rattle.std.specs.String.{string_bytes};

    ghost Value = { List ℕ };

    ghost view = { λ a. string_bytes a.text };
}

impl Str {
    /// The same text, owned.
    pub fn new(alloc: Global, text: &str) -> Result<Self, NoMemory>
        ensures { IfOk result (λ it. it ≡ text.now) }
    {
        let text = String::from_str(alloc, text)?;
        Ok(Str { text })
    }

    /// The text of the `String`. It takes no memory.
    pub fn from_string(text: String) -> Self
        ensures { result ≡ string_bytes text }
    {
        Str { text }
    }

    /// The text.
    pub fn as_str(&self) -> &str
        ensures { result.now ≡ self.now }
    {
        self.text.as_str()
    }

    /// The text's bytes.
    pub fn items(&self) -> &[u8]
        ensures { result.now ≡ self.now }
    {
        self.text.as_bytes()
    }
}

impl Duplicate for Str {
    fn copy(&self) -> Result<Self, NoMemory> {
        let text = self.text.clone()?;
        Ok(Str { text })
    }
}

impl PartialEq for Str {
    ghost eq = { pointwise nat_eq };

    ghost laws = { laws_of.partial_equiv_from_equiv nat_list_eq_equiv };

    fn eq(&self, other: &Self) -> bool {
        self.text == other.text
    }
}

impl Eq for Str {
    ghost laws = { nat_list_eq_equiv };
}

impl PartialOrd for Str {
    ghost partial_cmp = { as_partial_cmp (slice_cmp nat_cmp) };

    ghost laws = { texts_po };

    fn partial_cmp(&self, other: &Self) -> Option<Ordering> {
        Some(self.cmp(other))
    }
}

impl Ord for Str {
    ghost cmp = { slice_cmp nat_cmp };

    ghost total = { nat_list_cmp_total };

    ghost matches_partial_cmp = { λ x y. refl };

    ghost matches_eq = { texts_ties };

    fn cmp(&self, other: &Self) -> Ordering {
        self.text.cmp(&other.text)
    }
}
