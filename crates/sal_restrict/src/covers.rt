//! Whether ranges contain all numbers of others.
ghost use Rattle.std.specs.Prelude.{◌≡◌, ◌≤◌, ◌≤ℤ◌, pos, ◌+ℤ◌, FitsSigned, int_lt, int_le, if◌then◌else◌, length, drop, IsTrue};
ghost use Rattle.std.specs.Int.{w128};
ghost use Rattle.std.specs.List.{list_all, prefix_len};
ghost use Rattle.sal_restrict.specs.declared.ranges.Part.{Part as Numbers};
ghost use Rattle.sal_restrict.specs.Ranges.{is_ascending, covers};

use crate::ranges::Part;

/// The number, or the one after the end of the part if that is greater.
fn past(part: &Part, number: i128) -> i128
    requires { FitsSigned w128 (part.now.high +ℤ pos 1) }
    ensures { result ≡ (if int_le number part.now.high then part.now.high +ℤ pos 1 else number) }
{
    if number <= part.high {
        part.high + 1
    } else {
        number
    }
}

/// Whether the parts contain each of these numbers.
fn covers(parts: &[Part], numbers: Part) -> bool
    requires order { IsTrue (is_ascending parts.now) }
    requires some { numbers.low ≤ℤ numbers.high }
    ensures { result ≡ covers parts.now numbers }
{
    let mut next = numbers.low;
    for part in parts {
        if next < part.low {
            return false;
        }
        if numbers.high <= part.high {
            return true;
        }
        next = past(part, next);
    }
    false
}

/// How many of the first parts end before these numbers.
fn ended(parts: &[Part], numbers: &Part) -> usize
    ensures value { result ≡ prefix_len (λ (part : Numbers). int_lt part.high numbers.now.low) parts.now }
    ensures within { result ≤ length parts.now }
{
    parts
        .iter()
        .take_while(|part| part.high < numbers.low)
        .count()
}

/// The parts without the first ones that end before these numbers.
fn not_ended<'p>(parts: &'p [Part], numbers: &Part) -> &'p [Part]
    ensures { result.now ≡ drop (prefix_len (λ (part : Numbers). int_lt part.high numbers.now.low) parts.now) parts.now }
{
    &parts[ended(parts, numbers)..]
}

/// Whether ascending parts contain each number of these, which ascend too.
pub(crate) fn all_covered(within: &[Part], parts: &[Part]) -> bool
    requires within { IsTrue (is_ascending within.now) }
    requires order { IsTrue (is_ascending parts.now) }
    ensures { result ≡ list_all (covers within.now) parts.now }
{
    let mut rest = within;
    for part in parts {
        rest = not_ended(rest, part);
        if !covers(rest, *part) {
            return false;
        }
    }
    true
}
