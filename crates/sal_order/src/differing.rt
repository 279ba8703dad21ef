//! Where two texts differ.
ghost use Rattle.std.specs.Prelude.{◌≡◌, ◌+◌, ◌-◌, ◌<◌, ◌^◌, if◌then◌else◌, nat_eq};
ghost use Rattle.sal_order.specs.Differences as spec;

/// The number of whole lines in the longest common prefix of the texts; none if they are equal. Cost: one look at each byte of
/// that prefix.
pub fn difference(text: &[u8], other: &[u8]) -> Option<u64>
    ensures { result ≡ spec.difference 0 text.now other.now }
{
    let mut line = 0;
    for i in 0..text.len() {
        if i >= other.len() {
            return Some(line);
        }
        if text[i] != other[i] {
            return Some(line);
        }
        line = behind(line, text[i]);
    }
    if text.len() < other.len() {
        return Some(line);
    }
    None
}

// The line after the byte.
fn behind(line: u64, byte: u8) -> u64
    requires { line < 2 ^ 64 - 1 }
    ensures { result ≡ (if nat_eq byte 10 then line + 1 else line) }
{
    if byte == b'\n' { line + 1 } else { line }
}
