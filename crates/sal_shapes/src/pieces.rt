//! Pieces of the picture's text. Each function appends to `out`.
ghost use Rattle.std.specs.Prelude.{◌≡◌, ◌++◌, ◌∷◌, [], OnOk, decimal};
ghost use Rattle.sal_shapes.specs.Svg as spec;

use sal_types::{NoMemory, append};
use std::alloc::Global;

pub(crate) fn push(out: &mut Vec<u8>, word: &str) -> Result<(), NoMemory>
    ensures { OnOk result (out.new.items ≡ out.old.items ++ word.now) }
{
    out.extend_from_slice(word.as_bytes())?;
    Ok(())
}

pub(crate) fn push_number(alloc: Global, out: &mut Vec<u8>, n: u64) -> Result<(), NoMemory>
    ensures { OnOk result (out.new.items ≡ out.old.items ++ decimal n) }
{
    let digits = n.to_string(alloc)?;
    push(out, digits.as_str())
}

/// The text, escaped for use between tags.
pub(crate) fn push_escaped(out: &mut Vec<u8>, text: &[u8]) -> Result<(), NoMemory>
    ensures { OnOk result (out.new.items ≡ out.old.items ++ spec.escaped text.now) }
{
    let mut p = 0;
    let mut q = 0;
    for b in text {
        push_byte(out, p, q, *b)?;
        p = q;
        q = *b;
    }
    Ok(())
}

// The byte `b` after the bytes `p` and `q`.
fn push_byte(out: &mut Vec<u8>, p: u8, q: u8, b: u8) -> Result<(), NoMemory>
    ensures { OnOk result (out.new.items ≡ out.old.items ++ spec.escape p q b) }
{
    if b == b'&' {
        push(out, "&amp;")
    } else if b == b'<' {
        push(out, "&lt;")
    } else if b == b'>' {
        push(out, "&gt;")
    } else if b < 32 {
        append(out, 32)
    } else if p == 239 && (q == 191 && b > 189) {
        append(out, 189)
    } else {
        append(out, b)
    }
}
