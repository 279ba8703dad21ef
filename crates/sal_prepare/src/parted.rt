//! Inputs of two parts, such as a script and its report.
ghost use Rattle.std.specs.Prelude.{◌≡◌, ◌<◌, IfSome, length, nat_eq, option_map, position};
ghost use Rattle.sal_prepare.specs.Parted as spec;

/// The two parts of an input.
#[derive(Clone, Copy)]
pub struct TwoParts<'a> {
    pub first: &'a [u8],
    pub second: &'a [u8],
}

/// The parts before and after the first zero byte of an input; none if no byte is zero.
pub fn two_parts(bytes: &[u8]) -> Option<TwoParts<'_>>
    ensures { option_map (λ p. record { first = p.first.now; second = p.second.now }) result ≡ spec.parted bytes.now }
{
    match zero_at(bytes) {
        Some(at) => Some(TwoParts {
            first: &bytes[..at],
            second: &bytes[at + 1..],
        }),
        None => None,
    }
}

// The index of the first zero byte.
fn zero_at(bytes: &[u8]) -> Option<usize>
    ensures place { result ≡ position (λ b. nat_eq b 0) bytes.now }
    ensures within { IfSome result (λ at. at < length bytes.now) }
{
    bytes.iter().position(|byte| *byte == 0)
}
