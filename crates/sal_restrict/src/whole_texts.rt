//! Patterns of whole texts.
ghost use Rattle.std.specs.Prelude.{◌≡◌, IfOk, string_bytes};
ghost use Rattle.sal_restrict.specs.WholeTexts as spec;

use sal_types::NoMemory;
use std::alloc::Global;

/// The pattern that a text matches if all of it matches this one.
pub fn whole_text(alloc: Global, text: &str) -> Result<String, NoMemory>
    ensures { IfOk result (λ whole. string_bytes whole ≡ spec.whole_text text.now) }
{
    let mut whole = String::from_str(alloc, "\\A(?:")?;
    whole.push_str(text)?;
    whole.push_str(")\\z")?;
    Ok(whole)
}
