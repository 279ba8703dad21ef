//! A source and a sink in memory.
ghost use Rattle.std.specs.Prelude.{◌≡◌, ◌↔◌, ◌-◌, ◌<◌, ◌≤◌, ℕ, List, length, min, [], IfOk, IsErr, IsTrue, Some, is_err};
ghost use Rattle.std.specs.Io.{ReadsAtMost, WritesAtMost};
ghost use Rattle.std.specs.Io.KnownBytes.{ReadConsumes, WriteAppends};
ghost use Rattle.sal_io.specs.Causes.{HasCause};
ghost use Rattle.sal_io.specs.Memory.{called, is_named, refuses, uncalled};

use crate::fault::Failed;
use crate::sink::Sink;
use crate::source::Source;
use sal_types::NoMemory;
use std::alloc::Global;
use std::marker::Model;

// The numbers of the calls that fail, and how many calls were made and how many failed.
#[derive(Drop)]
struct Plan {
    fails: Vec<u64>,
    made: u64,
    failed: u64,
}

impl Model for Plan {
    ghost use Rattle.sal_io.specs.Memory.{Calls};

    ghost Value = { Calls };

    ghost view = { λ a. record { fails = a.fails.items; made = a.made; failed = a.failed } };
}

impl Plan {
    fn new(fails: Vec<u64>) -> Self
        ensures { result ≡ uncalled fails.items }
    {
        Plan {
            fails,
            made: 0,
            failed: 0,
        }
    }

    // Whether the next call fails.
    fn names_next(&self) -> bool
        ensures { result ≡ is_named self.now }
    {
        let made = self.made;
        self.fails.iter().any(|number| *number == made)
    }

    // Counts a call.
    fn count(&mut self, failed: bool)
        ensures counted { self.new ≡ called self.old failed }
        ensures later { self.old.failed ≤ self.new.failed }
    {
        self.made = self.made.saturating_add(1);
        if failed {
            self.failed = self.failed.saturating_add(1);
        }
    }
}

/// A source of these bytes, which its contract knows. A read fills as much of the buffer as it can. The calls with the given
/// numbers, counted from 0, fail.
#[derive(Drop)]
pub struct MemSource {
    bytes: Vec<u8>,
    at: usize,
    plan: Plan,
}

impl Model for MemSource {
    ghost use Rattle.std.specs.Prelude.{◌≤◌, drop, length};
    ghost use Rattle.sal_io.specs.Memory.{SourceState};

    ghost Value = { SourceState };

    ghost view = { λ a. record { left = drop a.at a.bytes.items; calls = a.plan } };

    ghost invariant = { λ a. a.at ≤ length a.bytes.items };
}

impl MemSource {
    /// A source of these bytes, whose calls with these numbers fail. It takes no memory.
    pub fn new(bytes: Vec<u8>, fails: Vec<u64>) -> Self
        ensures { result ≡ record { left = bytes.items; calls = uncalled fails.items } }
    {
        MemSource {
            bytes,
            at: 0,
            plan: Plan::new(fails),
        }
    }
}

impl Source for MemSource {
    ghost left = { λ s. Some s.left };

    ghost faults = { λ s. s.calls.failed };

    fn read(&mut self, buf: &mut [u8]) -> Result<usize, Failed>
        ensures bound { ReadsAtMost result buf.new }
        ensures bytes { ReadConsumes (Some self.old.left) (Some self.new.left) result buf.new }
        ensures cause { HasCause self.old.calls.failed self.new.calls.failed result }
        ensures fails { IsErr result ↔ IsTrue (is_named self.old.calls) }
        ensures count { IfOk result (λ count. count ≡ min (length self.old.left) (length buf.old)) }
        ensures calls { self.new.calls ≡ called self.old.calls (is_err result) }
    {
        let fails = self.plan.names_next();
        self.plan.count(fails);
        if fails {
            return Err(Failed);
        }
        let rest = &self.bytes[self.at..];
        let count = rest.len().min(buf.len());
        buf[..count].copy_from_slice(&rest[..count]);
        self.at += count;
        Ok(count)
    }
}

/// A sink whose contract knows the bytes taken. It takes as many as its room allows, and fails if nothing fits, and at the
/// calls with the given numbers, counted from 0.
#[derive(Drop)]
pub struct MemSink {
    bytes: Vec<u8>,
    room: usize,
    plan: Plan,
}

impl Model for MemSink {
    ghost use Rattle.std.specs.Prelude.{◌+◌, ◌≤◌, vec_len, vec_capacity};
    ghost use Rattle.sal_io.specs.Memory.{SinkState};

    ghost Value = { SinkState };

    ghost view = { λ a. record { taken = a.bytes.items; room = a.room; calls = a.plan } };

    ghost invariant = { λ a. vec_len a.bytes + a.room ≤ vec_capacity a.bytes };
}

impl MemSink {
    /// An empty sink with room for `room` bytes, whose calls with these numbers fail. The room is reserved, so a write
    /// takes no memory.
    pub fn new(alloc: Global, room: usize, fails: Vec<u64>) -> Result<Self, NoMemory>
        ensures { IfOk result (λ sink. sink ≡ record { taken = []; room = room; calls = uncalled fails.items }) }
    {
        let bytes = Vec::with_capacity(alloc, room)?;
        Ok(MemSink {
            bytes,
            room,
            plan: Plan::new(fails),
        })
    }

    /// The bytes taken so far.
    pub fn bytes(&self) -> &[u8]
        ensures { result.now ≡ self.now.taken }
    {
        &self.bytes
    }
}

impl Sink for MemSink {
    ghost taken = { λ s. Some s.taken };

    ghost faults = { λ s. s.calls.failed };

    fn write(&mut self, piece: &[u8]) -> Result<usize, Failed>
        ensures bound { WritesAtMost result piece.now }
        ensures some { IfOk result (λ count. 0 < length piece.now → 0 < count) }
        ensures bytes { WriteAppends (Some self.old.taken) (Some self.new.taken) result piece.now }
        ensures cause { HasCause self.old.calls.failed self.new.calls.failed result }
        ensures fails { IsErr result ↔ IsTrue (refuses self.old piece.now) }
        ensures count { IfOk result (λ count. count ≡ min (length piece.now) self.old.room) }
        ensures room { IfOk result (λ count. self.new.room ≡ self.old.room - count) }
        ensures calls { self.new.calls ≡ called self.old.calls (is_err result) }
    {
        let fails = self.plan.names_next() || (self.room == 0 && !piece.is_empty());
        self.plan.count(fails);
        if fails {
            return Err(Failed);
        }
        let count = piece.len().min(self.room);
        self.bytes.extend_from_slice(&piece[..count]).unwrap();
        self.room -= count;
        Ok(count)
    }
}
