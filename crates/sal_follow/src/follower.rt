//! A follower.
ghost use Rattle.std.specs.Prelude.{◌≡◌, ◌<◌, ◌≤◌, ◌+◌, ◌^◌, ◌++◌, length, drop, take, true, None, [], IfOk, OnOk, OnErr, MatchResult};
ghost use Rattle.sal_json.specs.Patterns.{patterns_of};
ghost use Rattle.sal_tree.specs.Rows.{rows_of};
ghost use Rattle.sal_follow.specs.Leader.{KeepsUp};
ghost use Rattle.sal_follow.specs.Framed.{IsSnapshot, IsSnapshotAt};
ghost use Rattle.sal_follow.specs.Laws.{trees_held};
ghost use Rattle.sal_follow.specs.Stream.{answer, are_trees, fresh, fresh_at, rows_held};
ghost use Rattle.sal_follow.specs.States.{Feeds, IsGained, IsJudged, IsSound, held};
ghost use Rattle.sal_follow.specs.Front.{front};
ghost use Rattle.sal_follow.specs.declared.front.Front.TheVariants.{Part};

use crate::commits::frame_of_rows;
use crate::exports::frame_alone;
use crate::fault::{ExportFault, FollowFault};
use crate::front::{Front, front_of};
use crate::reader::Reader;
use crate::state::{State, stepped};
use sal_history::{Device, Opening};
use sal_json::Patterns;
use sal_rows::Rows;
use sal_schema::Schema;
use sal_tree::Root;
use sal_types::{Bytes, NoMemory, Store};
use std::alloc::Global;
use std::marker::Model;
use std::sync::Arc;

/// A copy of a domain, built from the frames of its commits.
#[derive(Drop)]
pub struct Follower {
    alloc: Global,
    schema: Arc<Schema>,
    patterns: Patterns,
    state: State,
    rest: Vec<u8>,
}

impl Model for Follower {
    ghost use Rattle.sal_json.specs.Patterns.{patterns_of};
    ghost use Rattle.std.specs.Prelude.{◌≡◌};
    ghost use Rattle.sal_follow.specs.Front.{front};
    ghost use Rattle.sal_follow.specs.States.{Following, IsSound, held};
    ghost use Rattle.sal_follow.specs.declared.front.Front.TheVariants.{Part};
    ghost use Rattle.std.specs.Coded.{codes};
    ghost use Rattle.sal_restrict.specs.contracts.yang_type.YangType as e;

    ghost Value = { Following };

    ghost coded = { Prim.hlevel (codes, e.the_row.coded) };

    ghost view = { λ f. record { schema = f.schema.value; held = held f.state f.rest.items } };

    ghost invariant = { λ f. (f.patterns ≡ patterns_of f.schema.value) × IsSound f.schema.value f.state × (front f.rest.items ≡ Part) };
}

// The bytes after the first ones.
fn cut(bytes: &mut Vec<u8>, used: usize)
    requires { used ≤ length bytes.old.items }
    ensures { bytes.new.items ≡ drop used bytes.old.items }
{
    let len = bytes.len() - used;
    bytes.as_mut_slice().rotate_left(used);
    bytes.truncate(len);
}

// Appends the piece.
fn append(rest: &mut Vec<u8>, piece: &[u8]) -> Result<(), NoMemory>
    ensures ok { OnOk result (rest.new.items ≡ rest.old.items ++ piece.now) }
    ensures err { OnErr result (rest.new.items ≡ rest.old.items) }
{
    rest.extend_from_slice(piece)?;
    Ok(())
}

// Keeps the first `len` bytes only.
fn shortened(rest: &mut Vec<u8>, len: usize)
    ensures { rest.new.items ≡ take len rest.old.items }
{
    rest.truncate(len);
}

// Takes all complete frames, and keeps the bytes after them. If memory runs out, only the first `before` bytes stay.
fn judged(
    reader: &Reader,
    state: &mut State,
    rest: &mut Vec<u8>,
    before: usize,
) -> Result<(), NoMemory>
    requires sound { IsSound reader.now.schema.now state.old }
    requires going { state.old.fault ≡ None }
    requires room { state.old.first + state.old.at + length rest.old.items < 2 ^ 64 }
    ensures told { MatchResult result (λ _. IsJudged reader.now.schema.now state.old rest.old.items state.new rest.new.items) (λ _. (rest.new.items ≡ take before rest.old.items) × (state.new ≡ state.old)) }
    ensures sound { IsSound reader.now.schema.now state.new }
{
    match stepped(reader, state, rest) {
        Ok(used) => {
            cut(rest, used);
            Ok(())
        }
        Err(NoMemory) => {
            shortened(rest, before);
            Err(NoMemory)
        }
    }
}

// Takes a piece, and keeps the bytes of an incomplete frame. If memory runs out, nothing changes.
fn gained(
    reader: &Reader,
    state: &mut State,
    rest: &mut Vec<u8>,
    piece: &[u8],
) -> Result<(), NoMemory>
    requires sound { IsSound reader.now.schema.now state.old }
    requires going { state.old.fault ≡ None }
    requires part { front rest.old.items ≡ Part }
    requires room { state.old.first + state.old.at + length rest.old.items + length piece.now < 2 ^ 64 }
    ensures told { MatchResult result (λ _. IsGained reader.now.schema.now state.old rest.old.items piece.now state.new rest.new.items) (λ _. (rest.new.items ≡ rest.old.items) × (state.new ≡ state.old)) }
    ensures sound { IsSound reader.now.schema.now state.new }
{
    let before = rest.len();
    append(rest, piece)?;
    match front_of(rest) {
        Front::Part => Ok(()),
        _ => match judged(reader, state, rest, before) {
            Ok(()) => Ok(()),
            Err(NoMemory) => Err(NoMemory),
        },
    }
}

// The answer to a piece.
fn answered(state: &State) -> Result<Option<u64>, FollowFault>
    ensures { result ≡ answer (held state.now []) }
{
    match state.fault {
        Some(fault) => Err(fault),
        None => Ok(state.version),
    }
}

impl Follower {
    /// A follower at the start of a stream that begins with frame 0.
    pub fn new(alloc: Global, schema: Arc<Schema>, patterns: Patterns) -> Result<Follower, NoMemory>
        requires { patterns ≡ patterns_of schema.value }
        ensures { IfOk result (λ f. f ≡ record { schema = schema.value; held = fresh }) }
    {
        Follower::before(alloc, schema, patterns, 0)
    }

    /// A follower at the start of a stream that begins with the frame of this number, which has all rows (`snapshot_of`).
    pub fn before(
        alloc: Global,
        schema: Arc<Schema>,
        patterns: Patterns,
        first: u64,
    ) -> Result<Follower, NoMemory>
        requires { patterns ≡ patterns_of schema.value }
        ensures { IfOk result (λ f. f ≡ record { schema = schema.value; held = fresh_at first }) }
    {
        let state = State::before(alloc, first)?;
        Ok(Follower {
            alloc,
            schema,
            patterns,
            state,
            rest: Vec::new(alloc),
        })
    }

    /// Takes the next piece of the stream, and returns the follower's commit, none before the first frame.
    ///
    /// If memory runs out, nothing of the piece was taken. After another fault the follower keeps the last valid commit, and returns this fault
    /// from then on, also where there is no memory.
    pub fn feed(&mut self, piece: &[u8]) -> Result<Option<u64>, FollowFault>
        requires { self.old.held.first + self.old.held.at + length self.old.held.rest + length piece.now < 2 ^ 64 }
        ensures taken { Feeds piece.now self.old self.new result }
        ensures leader { KeepsUp piece.now self.old self.new result }
    {
        self.take(piece)
    }

    // The same, by the bytes alone.
    fn take(&mut self, piece: &[u8]) -> Result<Option<u64>, FollowFault>
        requires { self.old.held.first + self.old.held.at + length self.old.held.rest + length piece.now < 2 ^ 64 }
        ensures { Feeds piece.now self.old self.new result }
    {
        if let Some(fault) = self.state.fault {
            return Err(fault);
        }
        let reader = Reader::new(self.alloc, &self.schema, &self.patterns);
        match gained(&reader, &mut self.state, &mut self.rest, piece) {
            Ok(()) => answered(&self.state),
            Err(NoMemory) => Err(FollowFault::NoMemory),
        }
    }

    /// The first fault of the stream, which each later `feed` returns; none while the bytes so far have none. It takes no memory.
    pub fn fault(&self) -> Option<FollowFault>
        ensures { result ≡ self.now.held.fault }
    {
        self.state.fault
    }

    /// The follower's commit. It takes no memory.
    pub fn version(&self) -> Option<u64>
        ensures { result ≡ self.now.held.version }
    {
        self.state.version
    }

    /// The tree of a store at that commit. It takes no memory.
    pub fn tree(&self, store: Store) -> &Root
        ensures { rows_of result.now ≡ rows_held self.now.held store }
    {
        match store {
            Store::Config => self.state.config.root(),
            Store::Oper => self.state.oper.root(),
        }
    }

    /// The rows of that tree.
    pub fn rows(&self, store: Store) -> Result<Rows, NoMemory>
        ensures { IfOk result (λ rows. rows ≡ rows_held self.now.held store) }
    {
        match store {
            Store::Config => self.state.config.rows(self.alloc),
            Store::Oper => self.state.oper.rows(self.alloc),
        }
    }

    /// The frame of its commit with all rows, with which another stream may begin; none before its first frame.
    pub fn snapshot(&self) -> Option<Result<Bytes, ExportFault>>
        ensures { IsSnapshotAt self.now.schema self.now.held.version (trees_held self.now.held) result }
    {
        match self.state.version {
            Some(number) => Some(self.snapshot_as(number)),
            None => None,
        }
    }

    // The frame with all rows of its trees, and this number.
    fn snapshot_as(&self, number: u64) -> Result<Bytes, ExportFault>
        ensures { IsSnapshot self.now.schema number (trees_held self.now.held) result }
    {
        let Opening { config, oper } = self.opening()?;
        let frame = frame_of_rows(self.alloc, number, &config, &oper)?;
        frame_alone(self.alloc, &self.schema, &frame)
    }

    /// The number of bytes of an incomplete frame; 0 after a fault. It takes no memory.
    pub fn waiting(&self) -> u64
        ensures { result ≡ length self.now.held.rest }
    {
        self.rest.len() as u64
    }

    /// The domain at the follower's commit, as a device of a new hub: its schema is version 0, and the trees are the opening. They are trees of the
    /// schema.
    pub fn into_device(self) -> Result<Device, NoMemory>
        ensures schema { IfOk result (λ device. device.schema.value ≡ self.schema) }
        ensures upgrades { IfOk result (λ device. device.upgrades.items ≡ []) }
        ensures opening { IfOk result (λ device. device.opening ≡ record { config = self.held.config; oper = self.held.oper }) }
        ensures trees { are_trees self.schema self.held.config self.held.oper ≡ true }
    {
        let opening = self.opening()?;
        let Follower { alloc, schema, .. } = self;
        Ok(Device {
            schema,
            upgrades: Vec::new(alloc),
            opening,
        })
    }

    // The rows of both trees.
    fn opening(&self) -> Result<Opening, NoMemory>
        ensures { IfOk result (λ opening. opening ≡ record { config = self.now.held.config; oper = self.now.held.oper }) }
    {
        let config = self.rows(Store::Config)?;
        let oper = self.rows(Store::Oper)?;
        Ok(Opening { config, oper })
    }
}
