//! The answer of a call: its status and its text.
ghost use Rattle.std.specs.Prelude.{◌≡◌, []};
ghost use Rattle.sal_session.specs.Texts.{told};

use crate::text::{Text, nothing};
use std::alloc::Global;

/// A status and a text.
#[derive(Drop)]
pub struct Answer {
    pub(crate) number: u32,
    pub(crate) text: Text,
}

/// A status without a text.
pub(crate) fn bare(alloc: Global, number: u32) -> Answer
    ensures number { result.number ≡ number }
    ensures text { told result.text ≡ [] }
{
    Answer {
        number,
        text: nothing(alloc),
    }
}
