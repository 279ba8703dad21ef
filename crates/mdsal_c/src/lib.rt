//! The embedded broker and its stand-by for C: functions over a handle that C keeps. `embed/mdsal.h` documents each. Domain 0 is the controller's own;
//! the functions whose names end in `_of` take any domain.
#![tactic(auto)]

ghost use Rattle.std.specs.Prelude.{◌≡◌, ◌++◌, [], ◌∷◌, drop, length, min, take};
ghost use Rattle.std.specs.declared.option.Option.TheVariants.{None};
ghost use Rattle.mdsal_c.specs.Handles.{EpochIf, FeedsIf, FollowsIf, FramesIf, LeadsIf, LooksIf, OpensIf};
ghost use Rattle.mdsal_c.specs.Handles.{ReportsIf, SnapshotsIf, StepsIf, WaitsIf, domains_in, left_in, number_in, reply_of, version_in};

mod handle;
mod held;

use crate::handle::Mdsal;
use sal_session::{IS_OPEN, NOT_OPEN, loose};
use std::alloc::Global;
use std::slice;

/// Opens the broker of a script. If the script is refused, the handle has the text of why and no broker.
#[unsafe(no_mangle)]
pub extern "C" fn mdsal_open(alloc: Global, handle: &mut Mdsal, script: &[u8]) -> u32
    ensures { OpensIf script.now handle.old.held.value handle.new.held.value result }
{
    if handle.is_open(alloc) {
        return IS_OPEN;
    }
    handle.close(alloc);
    handle.fill(alloc, script)
}

/// Makes the next step of the client. The text of `mdsal_reply` is that of its reply.
#[unsafe(no_mangle)]
pub extern "C" fn mdsal_step(alloc: Global, handle: &mut Mdsal, client: u32, step: &[u8]) -> u32
    ensures { StepsIf handle.old.held.value client step.now handle.new.held.value result }
{
    let taken = handle.take(alloc);
    match taken {
        Some(session) => {
            let (session, status) = loose::step(session, alloc, client, step);
            handle.put(session);
            status
        }
        None => NOT_OPEN,
    }
}

/// Copies as much of the last call's text as fits, and returns its length.
#[unsafe(no_mangle)]
pub extern "C" fn mdsal_reply(alloc: Global, handle: &mut Mdsal, out: &mut [u8]) -> usize
    ensures same { handle.new.held.value ≡ handle.old.held.value }
    ensures length { result ≡ length (reply_of handle.old.held.value) }
    ensures copied { out.new ≡ take (min (length out.old) result) (reply_of handle.old.held.value) ++ drop (min (length out.old) result) out.old }
{
    let taken = handle.take(alloc);
    match taken {
        Some(session) => {
            let (session, length) = loose::copy_reply(session, out);
            handle.put(session);
            length
        }
        None => 0,
    }
}

/// Makes the report of all steps so far. It is the text of `mdsal_reply`.
#[unsafe(no_mangle)]
pub extern "C" fn mdsal_report(alloc: Global, handle: &mut Mdsal) -> u32
    ensures { ReportsIf handle.old.held.value handle.new.held.value result }
{
    let taken = handle.take(alloc);
    match taken {
        Some(session) => {
            let (session, status) = loose::report(session, alloc);
            handle.put(session);
            status
        }
        None => NOT_OPEN,
    }
}

/// Opens a stand-by of the broker of a script, before a stream that begins with the frame of this number.
#[unsafe(no_mangle)]
pub extern "C" fn mdsal_follow(alloc: Global, handle: &mut Mdsal, script: &[u8], first: u64) -> u32
    ensures { FollowsIf script.now (first ∷ []) handle.old.held.value handle.new.held.value result }
{
    handle.follow(alloc, script, slice::from_ref(&first))
}

/// The stand-by takes the next bytes of its stream.
#[unsafe(no_mangle)]
pub extern "C" fn mdsal_feed(alloc: Global, handle: &mut Mdsal, piece: &[u8]) -> u32
    ensures { FeedsIf handle.old.held.value 0 piece.now handle.new.held.value result }
{
    let taken = handle.take(alloc);
    match taken {
        Some(session) => {
            let (session, status) = loose::feed(session, alloc, 0, piece);
            handle.put(session);
            status
        }
        None => NOT_OPEN,
    }
}

/// The stand-by becomes the broker, by this version of the schema. Else it stays.
#[unsafe(no_mangle)]
pub extern "C" fn mdsal_lead(alloc: Global, handle: &mut Mdsal, version: u32) -> u32
    ensures { LeadsIf handle.old.held.value version handle.new.held.value result }
{
    let taken = handle.take(alloc);
    match taken {
        Some(session) => {
            let (session, status) = loose::lead(session, alloc, version);
            handle.put(session);
            status
        }
        None => NOT_OPEN,
    }
}

/// The text of `mdsal_reply` is the frames of the commits with numbers above this one.
#[unsafe(no_mangle)]
pub extern "C" fn mdsal_frames(alloc: Global, handle: &mut Mdsal, above: u64) -> u32
    ensures { FramesIf handle.old.held.value 0 above handle.new.held.value result }
{
    let taken = handle.take(alloc);
    match taken {
        Some(session) => {
            let (session, status) = loose::frames(session, alloc, 0, above);
            handle.put(session);
            status
        }
        None => NOT_OPEN,
    }
}

/// The text is the frame of the newest commit, with all rows.
#[unsafe(no_mangle)]
pub extern "C" fn mdsal_snapshot(alloc: Global, handle: &mut Mdsal) -> u32
    ensures { SnapshotsIf handle.old.held.value 0 handle.new.held.value result }
{
    let taken = handle.take(alloc);
    match taken {
        Some(session) => {
            let (session, status) = loose::snapshot(session, alloc, 0);
            handle.put(session);
            status
        }
        None => NOT_OPEN,
    }
}

/// Begins the next epoch, if no submission is pending and the newest commit has this number.
#[unsafe(no_mangle)]
pub extern "C" fn mdsal_epoch(alloc: Global, handle: &mut Mdsal, newest: u64) -> u32
    ensures { EpochIf handle.old.held.value (newest ∷ []) handle.new.held.value result }
{
    handle.epoch(alloc, slice::from_ref(&newest))
}

/// The text is that of a read in the newest tree of the store: 0 is the configuration, 1 the operational one.
#[unsafe(no_mangle)]
pub extern "C" fn mdsal_look(alloc: Global, handle: &mut Mdsal, store: u32, path: &[u8]) -> u32
    ensures { LooksIf handle.old.held.value 0 store path.now handle.new.held.value result }
{
    let taken = handle.take(alloc);
    match taken {
        Some(session) => {
            let (session, status) = loose::look(session, alloc, 0, store, path);
            handle.put(session);
            status
        }
        None => NOT_OPEN,
    }
}

/// The number of the newest commit, or of the last frame; 0 if there is none.
#[unsafe(no_mangle)]
pub extern "C" fn mdsal_number(alloc: Global, handle: &mut Mdsal) -> u64
    ensures number { result ≡ number_in handle.old.held.value 0 }
    ensures same { handle.new.held.value ≡ handle.old.held.value }
{
    let taken = handle.take(alloc);
    match taken {
        Some(session) => {
            let (session, number) = loose::number(session, 0);
            handle.put(session);
            number
        }
        None => 0,
    }
}

/// The present version of a broker's schema, as the script counts; else 0.
#[unsafe(no_mangle)]
pub extern "C" fn mdsal_version(alloc: Global, handle: &mut Mdsal) -> u32
    ensures number { result ≡ version_in handle.old.held.value }
    ensures same { handle.new.held.value ≡ handle.old.held.value }
{
    let taken = handle.take(alloc);
    match taken {
        Some(session) => {
            let (session, number) = loose::version(session);
            handle.put(session);
            number
        }
        None => 0,
    }
}

/// What waits for a client of a broker at this number of its slots, as bits; else 0.
#[unsafe(no_mangle)]
pub extern "C" fn mdsal_waits(alloc: Global, handle: &mut Mdsal, client: u32, slot: u8) -> u32
    ensures bits { WaitsIf handle.old.held.value client slot result }
    ensures same { handle.new.held.value ≡ handle.old.held.value }
{
    let taken = handle.take(alloc);
    match taken {
        Some(session) => {
            let (session, bits) = loose::waits(session, client, slot);
            handle.put(session);
            bits
        }
        None => 0,
    }
}

/// How many entries the log of a broker has left; else 0.
#[unsafe(no_mangle)]
pub extern "C" fn mdsal_left(alloc: Global, handle: &mut Mdsal) -> usize
    ensures number { result ≡ left_in handle.old.held.value }
    ensures same { handle.new.held.value ≡ handle.old.held.value }
{
    let taken = handle.take(alloc);
    match taken {
        Some(session) => {
            let (session, number) = loose::left(session);
            handle.put(session);
            number
        }
        None => 0,
    }
}

/// Opens a stand-by of the broker of a script, before streams that begin with the frames of these numbers, of domain 0 first.
#[unsafe(no_mangle)]
pub extern "C" fn mdsal_follow_of(
    alloc: Global,
    handle: &mut Mdsal,
    script: &[u8],
    firsts: &[u64],
) -> u32
    ensures { FollowsIf script.now firsts.now handle.old.held.value handle.new.held.value result }
{
    handle.follow(alloc, script, firsts)
}

/// The stand-by takes the next bytes of the domain's stream.
#[unsafe(no_mangle)]
pub extern "C" fn mdsal_feed_of(alloc: Global, handle: &mut Mdsal, domain: u32, piece: &[u8]) -> u32
    ensures { FeedsIf handle.old.held.value domain piece.now handle.new.held.value result }
{
    let taken = handle.take(alloc);
    match taken {
        Some(session) => {
            let (session, status) = loose::feed(session, alloc, domain, piece);
            handle.put(session);
            status
        }
        None => NOT_OPEN,
    }
}

/// The text of `mdsal_reply` is the frames of the domain's commits with numbers above this one.
#[unsafe(no_mangle)]
pub extern "C" fn mdsal_frames_of(alloc: Global, handle: &mut Mdsal, domain: u32, above: u64) -> u32
    ensures { FramesIf handle.old.held.value domain above handle.new.held.value result }
{
    let taken = handle.take(alloc);
    match taken {
        Some(session) => {
            let (session, status) = loose::frames(session, alloc, domain, above);
            handle.put(session);
            status
        }
        None => NOT_OPEN,
    }
}

/// The text is the frame of the domain's newest commit, with all rows.
#[unsafe(no_mangle)]
pub extern "C" fn mdsal_snapshot_of(alloc: Global, handle: &mut Mdsal, domain: u32) -> u32
    ensures { SnapshotsIf handle.old.held.value domain handle.new.held.value result }
{
    let taken = handle.take(alloc);
    match taken {
        Some(session) => {
            let (session, status) = loose::snapshot(session, alloc, domain);
            handle.put(session);
            status
        }
        None => NOT_OPEN,
    }
}

/// Begins the next epoch, if no submission is pending and the newest commits of the first domains have these numbers.
#[unsafe(no_mangle)]
pub extern "C" fn mdsal_epoch_of(alloc: Global, handle: &mut Mdsal, newest: &[u64]) -> u32
    ensures { EpochIf handle.old.held.value newest.now handle.new.held.value result }
{
    handle.epoch(alloc, newest)
}

/// The text is that of a read in the newest tree of the domain's store: 0 is the configuration, 1 the operational one.
#[unsafe(no_mangle)]
pub extern "C" fn mdsal_look_of(
    alloc: Global,
    handle: &mut Mdsal,
    domain: u32,
    store: u32,
    path: &[u8],
) -> u32
    ensures { LooksIf handle.old.held.value domain store path.now handle.new.held.value result }
{
    let taken = handle.take(alloc);
    match taken {
        Some(session) => {
            let (session, status) = loose::look(session, alloc, domain, store, path);
            handle.put(session);
            status
        }
        None => NOT_OPEN,
    }
}

/// The number of the domain's newest commit, or of its last frame; 0 if there is none.
#[unsafe(no_mangle)]
pub extern "C" fn mdsal_number_of(alloc: Global, handle: &mut Mdsal, domain: u32) -> u64
    ensures number { result ≡ number_in handle.old.held.value domain }
    ensures same { handle.new.held.value ≡ handle.old.held.value }
{
    let taken = handle.take(alloc);
    match taken {
        Some(session) => {
            let (session, number) = loose::number(session, domain);
            handle.put(session);
            number
        }
        None => 0,
    }
}

/// How many domains the broker or the stand-by has; else 0.
#[unsafe(no_mangle)]
pub extern "C" fn mdsal_domains(alloc: Global, handle: &mut Mdsal) -> usize
    ensures number { result ≡ domains_in handle.old.held.value }
    ensures same { handle.new.held.value ≡ handle.old.held.value }
{
    let taken = handle.take(alloc);
    match taken {
        Some(session) => {
            let (session, number) = loose::domains(session);
            handle.put(session);
            number
        }
        None => 0,
    }
}

/// Drops the broker or the stand-by, and the text. The handle is zeros again.
#[unsafe(no_mangle)]
pub extern "C" fn mdsal_close(alloc: Global, handle: &mut Mdsal)
    ensures { handle.new.held.value ≡ None }
{
    handle.close(alloc);
}
