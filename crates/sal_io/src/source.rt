//! Sources, which give bytes.
ghost use Rattle.std.specs.Prelude.{◌≡◌, ◌<◌, ◌≤◌, ◌+◌, ◌++◌, ℕ, List, length, max, take, drop, IfOk, OnOk, OnErr, IsErrOf, vec_len};
ghost use Rattle.std.specs.declared.option.Option.{Option};
ghost use Rattle.std.specs.Io.{ReadsAtMost};
ghost use Rattle.std.specs.Io.KnownBytes.{ReadConsumes, Consumes, Keeps, IsAtEnd};
ghost use Rattle.sal_io.specs.Causes.{HasCause, Rose};
ghost use Rattle.sal_io.specs.Transfer.{TakenBy};

use crate::fault::{Failed, ReadFail};
use std::alloc::{AllocError, Global};

/// Where bytes come from.
pub trait Source {
    /// The bytes that it still has, if they are known.
    ghost left: { Self → Option (List ℕ) };

    /// How often it has failed.
    ghost faults: { Self → ℕ };

    /// Reads some bytes into the front of the buffer and returns their number. 0 for a buffer that is not empty means the
    /// end. A failed read takes no bytes from the source.
    fn read(&mut self, buf: &mut [u8]) -> Result<usize, Failed>
        ensures bound { ReadsAtMost result buf.new }
        ensures bytes { ReadConsumes (left self.old) (left self.new) result buf.new }
        ensures cause { HasCause (faults self.old) (faults self.new) result };
}

// The most bytes that one read asks for.
const PIECE: usize = 65_536;

/// Reads all bytes that the source still has, if they are at most `limit`. With `TooLong` it has taken `limit + 1` bytes from
/// the source, with any other error at most `limit`; the caller does not get these bytes.
pub fn read_all<S: Source>(alloc: Global, source: &mut S, limit: usize) -> Result<Vec<u8>, ReadFail>
    ensures taken { TakenBy (S.left source.old) (S.left source.new) limit result }
    ensures read_fault { IsErrOf result ReadFail.ReadFault
        → Rose (S.faults source.old) (S.faults source.new) }
    ensures later { S.faults source.old ≤ S.faults source.new }
{
    let mut bytes = Vec::new(alloc);
    let mut filled = 0;
    while filled <= limit {
        let most = (limit - filled).min(PIECE - 1) + 1;
        make_room(&mut bytes, filled, most)?;
        let count = read_at(source, bytes.as_mut_slice(), filled)?;
        if count == 0 {
            bytes.truncate(filled);
            return Ok(bytes);
        }
        filled += count;
    }
    Err(ReadFail::TooLong)
}

// Makes the buffer longer than `filled`. The bytes before `filled` stay.
fn make_room(bytes: &mut Vec<u8>, filled: usize, most: usize) -> Result<(), AllocError>
    requires filled { filled ≤ vec_len bytes.old }
    requires some { 0 < most }
    requires piece { most ≤ 65536 }
    ensures within { filled ≤ vec_len bytes.new }
    ensures front { take filled bytes.new.items ≡ take filled bytes.old.items }
    ensures room { OnOk result (filled < vec_len bytes.new) }
    ensures no_more { vec_len bytes.new ≤ max (vec_len bytes.old) (filled + most) }
{
    if bytes.len() == filled {
        bytes.resize(filled + most, 0)?;
    }
    Ok(())
}

// One read into the buffer, from `filled` on.
fn read_at<S: Source>(source: &mut S, bytes: &mut [u8], filled: usize) -> Result<usize, Failed>
    requires { filled < length bytes.old }
    ensures front { take filled bytes.new ≡ take filled bytes.old }
    ensures fits { IfOk result (λ count. filled + count ≤ length bytes.new) }
    ensures ok { IfOk result (λ count. Consumes (S.left source.old) (S.left source.new)
        (take count (drop filled bytes.new))) }
    ensures err { OnErr result (Keeps (S.left source.old) (S.left source.new)) }
    ensures end { IfOk result (λ count. count ≡ 0 → IsAtEnd (S.left source.new)) }
    ensures cause { HasCause (S.faults source.old) (S.faults source.new) result }
{
    source.read(&mut bytes[filled..])
}
