//! A session as a pointer, for a host that holds it. A `Loose` is not dropped by itself: only `close` frees a session.
ghost use Rattle.std.specs.Prelude.{◌≡◌, ◌++◌, IfOk, drop, length, min, take};
ghost use Rattle.sal_session.specs.Sessions as spec;
ghost use Rattle.sal_session.specs.Streams as streams;
ghost use Rattle.sal_session.specs.Texts.{told};

use crate::Session;
use sal_handle::loose::Loose;
use sal_types::NoMemory;
use std::alloc::Global;

/// `Session::open`, on the heap.
pub fn open(alloc: Global, script: &[u8]) -> Result<(Loose<Session, Global>, u32), NoMemory>
    ensures { IfOk result (λ it. spec.Opens script.now it.0.value.role (told it.0.value.text) it.1) }
{
    match Session::boxed(alloc, script) {
        Ok((session, status)) => Ok((Loose::of(session), status)),
        Err(NoMemory) => Err(NoMemory),
    }
}

/// `Session::step`.
pub fn step(
    session: Loose<Session, Global>,
    alloc: Global,
    client: u32,
    step: &[u8],
) -> (Loose<Session, Global>, u32)
    ensures { spec.StepsIf session.value.role client step.now result.0.value result.1 }
{
    let mut session = session.into_box();
    let status = session.step(alloc, client, step);
    (Loose::of(session), status)
}

/// `Session::report`.
pub fn report(session: Loose<Session, Global>, alloc: Global) -> (Loose<Session, Global>, u32)
    ensures { spec.ReportsIf session.value.role result.0.value result.1 }
{
    let mut session = session.into_box();
    let status = session.report(alloc);
    (Loose::of(session), status)
}

/// `Session::follow`, on the heap.
pub fn follow(
    alloc: Global,
    script: &[u8],
    firsts: &[u64],
) -> Result<(Loose<Session, Global>, u32), NoMemory>
    ensures { IfOk result (λ it. streams.Follows script.now firsts.now it.0.value.role (told it.0.value.text) it.1) }
{
    match Session::follow_boxed(alloc, script, firsts) {
        Ok((session, status)) => Ok((Loose::of(session), status)),
        Err(NoMemory) => Err(NoMemory),
    }
}

/// `Session::feed`.
pub fn feed(
    session: Loose<Session, Global>,
    alloc: Global,
    domain: u32,
    piece: &[u8],
) -> (Loose<Session, Global>, u32)
    ensures { streams.FeedsIf session.value.role domain piece.now result.0.value result.1 }
{
    let mut session = session.into_box();
    let status = session.feed(alloc, domain, piece);
    (Loose::of(session), status)
}

/// `Session::lead`.
pub fn lead(
    session: Loose<Session, Global>,
    alloc: Global,
    version: u32,
) -> (Loose<Session, Global>, u32)
    ensures { streams.LeadsIf session.value.role version result.0.value result.1 }
{
    let mut session = session.into_box();
    let status = session.lead(alloc, version);
    (Loose::of(session), status)
}

/// `Session::frames`.
pub fn frames(
    session: Loose<Session, Global>,
    alloc: Global,
    domain: u32,
    above: u64,
) -> (Loose<Session, Global>, u32)
    ensures { streams.FramesIf session.value.role domain above result.0.value result.1 }
{
    let mut session = session.into_box();
    let status = session.frames(alloc, domain, above);
    (Loose::of(session), status)
}

/// `Session::snapshot`.
pub fn snapshot(
    session: Loose<Session, Global>,
    alloc: Global,
    domain: u32,
) -> (Loose<Session, Global>, u32)
    ensures { streams.SnapshotsIf session.value.role domain result.0.value result.1 }
{
    let mut session = session.into_box();
    let status = session.snapshot(alloc, domain);
    (Loose::of(session), status)
}

/// `Session::epoch`.
pub fn epoch(
    session: Loose<Session, Global>,
    alloc: Global,
    newest: &[u64],
) -> (Loose<Session, Global>, u32)
    ensures { streams.EpochIf session.value.role newest.now result.0.value result.1 }
{
    let mut session = session.into_box();
    let status = session.epoch(alloc, newest);
    (Loose::of(session), status)
}

/// `Session::look`.
pub fn look(
    session: Loose<Session, Global>,
    alloc: Global,
    domain: u32,
    store: u32,
    path: &[u8],
) -> (Loose<Session, Global>, u32)
    ensures { streams.LooksIf session.value.role domain store path.now result.0.value result.1 }
{
    let mut session = session.into_box();
    let status = session.look(alloc, domain, store, path);
    (Loose::of(session), status)
}

/// `Session::number`.
pub fn number(session: Loose<Session, Global>, domain: u32) -> (Loose<Session, Global>, u64)
    ensures number { result.1 ≡ streams.number_in session.value.role domain }
    ensures same { result.0.value ≡ session.value }
{
    let session = session.into_box();
    let number = session.number(domain);
    (Loose::of(session), number)
}

/// `Session::domains`.
pub fn domains(session: Loose<Session, Global>) -> (Loose<Session, Global>, usize)
    ensures number { result.1 ≡ streams.domains_in session.value.role }
    ensures same { result.0.value ≡ session.value }
{
    let session = session.into_box();
    let number = session.domains();
    (Loose::of(session), number)
}

/// `Session::waits`.
pub fn waits(
    session: Loose<Session, Global>,
    client: u32,
    slot: u8,
) -> (Loose<Session, Global>, u32)
    ensures bits { spec.WaitsIn session.value.role client slot result.1 }
    ensures same { result.0.value ≡ session.value }
{
    let session = session.into_box();
    let bits = session.waits(client, slot);
    (Loose::of(session), bits)
}

/// `Session::version`.
pub fn version(session: Loose<Session, Global>) -> (Loose<Session, Global>, u32)
    ensures number { result.1 ≡ streams.version_in session.value.role }
    ensures same { result.0.value ≡ session.value }
{
    let session = session.into_box();
    let number = session.version();
    (Loose::of(session), number)
}

/// `Session::left`.
pub fn left(session: Loose<Session, Global>) -> (Loose<Session, Global>, usize)
    ensures number { result.1 ≡ streams.left_in session.value.role }
    ensures same { result.0.value ≡ session.value }
{
    let session = session.into_box();
    let number = session.left();
    (Loose::of(session), number)
}

/// `Session::is_open`.
pub fn is_open(session: Loose<Session, Global>) -> (Loose<Session, Global>, bool)
    ensures open { result.1 ≡ spec.is_open session.value.role }
    ensures same { result.0.value ≡ session.value }
{
    let session = session.into_box();
    let is_open = session.is_open();
    (Loose::of(session), is_open)
}

/// Copies as much of the last call's text as fits, and returns its length.
pub fn copy_reply(
    session: Loose<Session, Global>,
    out: &mut [u8],
) -> (Loose<Session, Global>, usize)
    ensures same { result.0.value ≡ session.value }
    ensures length { result.1 ≡ length (told session.value.text) }
    ensures copied { out.new ≡ take (min (length out.old) result.1) (told session.value.text) ++ drop (min (length out.old) result.1) out.old }
{
    let session = session.into_box();
    let length = copy(session.reply(), out);
    (Loose::of(session), length)
}

fn copy(from: &[u8], out: &mut [u8]) -> usize
    ensures length { result ≡ length from.now }
    ensures copied { out.new ≡ take (min (length out.old) result) from.now ++ drop (min (length out.old) result) out.old }
{
    let n = out.len().min(from.len());
    out[..n].copy_from_slice(&from[..n]);
    from.len()
}

/// Drops the session, with all that it has.
pub fn close(session: Loose<Session, Global>) {
    drop(session.into_box());
}
