//! The state of a follower, frame by frame.
ghost use Rattle.std.specs.Prelude.{◌≡◌, ◌<◌, ◌≤◌, ◌+◌, ◌^◌, [], None, Some, length, IfOk, MatchResult};
ghost use Rattle.sal_rows.specs.Patch.{patched};
ghost use Rattle.sal_follow.specs.Stream as spec;
ghost use Rattle.sal_follow.specs.States.{held, nothing_held, FrameFits, IsSound, IsStepped, IsWithin, StaysSound};
ghost use Rattle.sal_follow.specs.Front.{size_of, text_in};

use crate::fault::FollowFault;
use crate::frame::Frame;
use crate::front::{Front, front_of};
use crate::reader::Reader;
use crate::trees::{Both, trees_after};
use sal_rowtree::RowTree;
use sal_types::{Duplicate, NoMemory};
use std::alloc::Global;

/// The number of the stream's first frame, the follower's commit and its trees, the offset of the end of its frame in the stream, and the first fault.
///
/// A copy shares the trees, and a frame makes new ones: so a piece is taken as a whole, or not at all.
#[derive(Drop)]
pub(crate) struct State {
    pub(crate) first: u64,
    pub(crate) version: Option<u64>,
    pub(crate) config: RowTree,
    pub(crate) oper: RowTree,
    pub(crate) at: u64,
    pub(crate) fault: Option<FollowFault>,
}

impl State {
    /// The state before a stream that begins with the frame of this number.
    pub(crate) fn before(alloc: Global, first: u64) -> Result<State, NoMemory>
        ensures { IfOk result (λ state. state ≡ nothing_held first) }
    {
        let config = RowTree::empty(alloc)?;
        let oper = RowTree::empty(alloc)?;
        Ok(State {
            first,
            version: None,
            config,
            oper,
            at: 0,
            fault: None,
        })
    }
}

// The number of the stream's first frame, and the offset of the next one.
#[derive(Clone, Copy, Drop)]
struct Place {
    first: u64,
    at: u64,
}

// A frame, and the number of its bytes.
#[derive(Drop)]
struct Came {
    frame: Frame,
    size: u64,
}

// The same with a fault.
fn failed(state: State, fault: FollowFault) -> State
    ensures held { held result [] ≡ spec.failed (held state []) fault }
    ensures at { (result.first ≡ state.first) × (result.at ≡ state.at) }
    ensures sound { StaysSound state result }
{
    State {
        first: state.first,
        version: state.version,
        config: state.config,
        oper: state.oper,
        at: state.at,
        fault: Some(fault),
    }
}

// The number of the next commit.
fn next(state: &State) -> u64
    requires within { IsWithin state.now }
    requires room { state.now.first + state.now.at < 2 ^ 64 }
    ensures { result ≡ spec.next (held state.now []) }
{
    match state.version {
        Some(number) => number + 1,
        None => state.first,
    }
}

// The state with the trees after a frame.
fn moved(both: Both, place: Place, commit: u64) -> State
    ensures { result ≡ record { first = place.first; version = Some commit; config = both.config; oper = both.oper; at = place.at; fault = None } }
{
    State {
        first: place.first,
        version: Some(commit),
        config: both.config,
        oper: both.oper,
        at: place.at,
        fault: None,
    }
}

// The state after a frame with the number of the next commit.
fn after_next(reader: &Reader, state: State, came: Came) -> Result<State, NoMemory>
    requires sound { IsSound reader.now.schema.now state }
    requires fits { FrameFits reader.now.schema.now came.frame }
    requires room { state.first + state.at + came.size < 2 ^ 64 }
    requires some { 0 < came.size }
    requires next { came.frame.commit ≡ spec.next (held state []) }
    ensures held { IfOk result (λ it. held it [] ≡ spec.if_trees reader.now.schema.now (held state []) came.size came.frame.commit (patched state.config came.frame.config) (patched state.oper came.frame.oper)) }
    ensures sound { IfOk result (λ it. IsSound reader.now.schema.now it) }
    ensures at { IfOk result (λ it. it.first + it.at ≤ state.first + state.at + came.size) }
{
    match trees_after(reader, &state, &came.frame)? {
        Some(both) => {
            let behind = Place {
                first: state.first,
                at: state.at + came.size,
            };
            Ok(moved(both, behind, came.frame.commit))
        }
        None => {
            let at = state.at;
            Ok(failed(state, FollowFault::BadFrame { at }))
        }
    }
}

// The state after a frame.
fn after_frame(reader: &Reader, state: State, came: Came) -> Result<State, NoMemory>
    requires sound { IsSound reader.now.schema.now state }
    requires fits { FrameFits reader.now.schema.now came.frame }
    requires going { state.fault ≡ None }
    requires room { state.first + state.at + came.size < 2 ^ 64 }
    requires some { 0 < came.size }
    ensures held { IfOk result (λ it. held it [] ≡ spec.if_next reader.now.schema.now (held state []) came.size came.frame) }
    ensures sound { IfOk result (λ it. IsSound reader.now.schema.now it) }
    ensures at { IfOk result (λ it. it.first + it.at ≤ state.first + state.at + came.size) }
{
    let want = next(&state);
    let got = came.frame.commit;
    if got != want {
        return Ok(failed(state, FollowFault::Gap { want, got }));
    }
    after_next(reader, state, came)
}

// The state after the frame of this text.
fn taken(reader: &Reader, state: State, text: &[u8]) -> Result<State, NoMemory>
    requires sound { IsSound reader.now.schema.now state }
    requires going { state.fault ≡ None }
    requires room { state.first + state.at + length text.now + 10 < 2 ^ 64 }
    ensures held { IfOk result (λ it. held it [] ≡ spec.taken reader.now.schema.now (held state []) (size_of (length text.now)) text.now) }
    ensures sound { IfOk result (λ it. IsSound reader.now.schema.now it) }
    ensures at { IfOk result (λ it. it.first + it.at ≤ state.first + state.at + (length text.now + 10)) }
{
    match reader.frame_in(text)? {
        Some(frame) => {
            let size = text.len() as u64 + 10;
            after_frame(reader, state, Came { frame, size })
        }
        None => {
            let at = state.at;
            Ok(failed(state, FollowFault::BadFrame { at }))
        }
    }
}

// The text of a complete frame.
fn text_of(rest: &[u8], len: usize) -> &[u8]
    requires { len + 9 < length rest.now }
    ensures { result.now ≡ text_in rest.now len }
{
    &rest[9..9 + len]
}

// The state after all complete frames, and the number of their bytes.
fn advanced(reader: &Reader, state: State, bytes: &[u8]) -> Result<(State, usize), NoMemory>
    requires sound { IsSound reader.now.schema.now state }
    requires going { state.fault ≡ None }
    requires room { state.first + state.at + length bytes.now < 2 ^ 64 }
    ensures stepped { IfOk result (λ r. IsStepped reader.now.schema.now state bytes.now r.0 r.1) }
    ensures sound { IfOk result (λ r. IsSound reader.now.schema.now r.0) }
{
    let mut state = state;
    let mut used = 0;
    while used < bytes.len() {
        let rest = &bytes[used..];
        match front_of(rest) {
            Front::Part => return Ok((state, used)),
            Front::Broken => {
                let at = state.at;
                return Ok((failed(state, FollowFault::BadFrame { at }), bytes.len()));
            }
            Front::Whole { len } => {
                state = taken(reader, state, text_of(rest, len))?;
                if state.fault.is_some() {
                    return Ok((state, bytes.len()));
                }
                used += len + 10;
            }
        }
    }
    Ok((state, used))
}

// A copy that shares the trees.
fn copy_of(state: &State) -> Result<State, NoMemory>
    ensures { IfOk result (λ copy. copy ≡ state.now) }
{
    let config = state.config.copy()?;
    let oper = state.oper.copy()?;
    Ok(State {
        first: state.first,
        version: state.version,
        config,
        oper,
        at: state.at,
        fault: state.fault,
    })
}

// The same, from a copy of the state.
fn advanced_from(reader: &Reader, state: &State, bytes: &[u8]) -> Result<(State, usize), NoMemory>
    requires sound { IsSound reader.now.schema.now state.now }
    requires going { state.now.fault ≡ None }
    requires room { state.now.first + state.now.at + length bytes.now < 2 ^ 64 }
    ensures stepped { IfOk result (λ r. IsStepped reader.now.schema.now state.now bytes.now r.0 r.1) }
    ensures sound { IfOk result (λ r. IsSound reader.now.schema.now r.0) }
{
    let start = copy_of(state)?;
    advanced(reader, start, bytes)
}

/// Takes all complete frames, and returns the number of their bytes. If memory runs out, the state is unchanged.
pub(crate) fn stepped(reader: &Reader, state: &mut State, bytes: &[u8]) -> Result<usize, NoMemory>
    requires sound { IsSound reader.now.schema.now state.old }
    requires going { state.old.fault ≡ None }
    requires room { state.old.first + state.old.at + length bytes.now < 2 ^ 64 }
    ensures told { MatchResult result (IsStepped reader.now.schema.now state.old bytes.now state.new) (λ _. state.new ≡ state.old) }
    ensures sound { IsSound reader.now.schema.now state.new }
{
    let (after, used) = advanced_from(reader, state, bytes)?;
    *state = after;
    Ok(used)
}
