//! Cuts of a text at an ASCII byte.
ghost use Rattle.std.specs.Prelude.{◌≡◌, ◌+◌, ◌-◌, ◌<◌, ◌≤◌, length, take, drop, slice_index};

/// The bytes before the ASCII byte at `i`.
#[inline]
pub fn front(text: &str, i: usize) -> &str
    requires there { i < length text.now }
    requires ascii { slice_index text.now i < 128 }
    ensures { result.now ≡ take i text.now }
{
    &text[..i]
}

/// The text after its first `n` bytes, the last of which is ASCII.
#[inline]
pub fn tail(text: &str, n: usize) -> &str
    requires some { 0 < n }
    requires there { n ≤ length text.now }
    requires ascii { slice_index text.now (n - 1) < 128 }
    ensures rest { result.now ≡ drop n text.now }
    ensures shorter { length result.now + n ≡ length text.now }
{
    &text[n..]
}
