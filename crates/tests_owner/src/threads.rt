//! Two threads that register and unregister one entity, while a third client keeps a copy.
ghost use Rattle.std.specs.Prelude.{◌≡◌, IfOk};
ghost use Rattle.sal_turn.specs.Views.{opener};
ghost use Rattle.sal_owner.specs.Turns.{Keeps};

use sal_owner::{
    Entity, OwnedList, OwnerBook, OwnerCall, OwnerEntry, OwnerFault, OwnerSeat, Owners,
    OwnershipState, Standing,
};
use sal_types::{NoMemory, Str};
use std::alloc::Global;
use std::sync::Wait;
use std::test::Fail;
use std::thread::{Threads, join};

// How often each thread registers, and unregisters.
const ROUNDS: u64 = 500;

fn text(alloc: Global, it: &str) -> Result<Str, OwnerFault> {
    match Str::new(alloc, it) {
        Ok(it) => Ok(it),
        Err(NoMemory) => Err(OwnerFault::NoMemory),
    }
}

fn switch(alloc: Global) -> Result<Entity, OwnerFault> {
    let kind = text(alloc, "sw")?;
    let id = text(alloc, "s1")?;
    Ok(Entity { kind, id })
}

// Comes as a candidate, or goes.
fn move_by<R: Wait>(
    rt: &R,
    alloc: Global,
    owners: &Owners,
    seat: &mut OwnerSeat,
    comes: bool,
) -> Result<(), OwnerFault>
    requires { seat.old.lock ≡ owners.now }
    ensures { Keeps owners.now seat.old seat.new }
{
    let entity = switch(alloc)?;
    if comes {
        return owners.register(rt, alloc, seat, entity);
    }
    owners.unregister(rt, alloc, seat, entity)
}

// Registers, and then unregisters.
fn one_round<R: Wait>(rt: &R, alloc: Global, owners: &Owners, seat: &mut OwnerSeat) -> bool
    requires { seat.old.lock ≡ owners.now }
    ensures { Keeps owners.now seat.old seat.new }
{
    let came = move_by(rt, alloc, owners, seat, true).is_ok();
    let went = move_by(rt, alloc, owners, seat, false).is_ok();
    came && went
}

// The seat, and how many rounds succeeded.
fn rounds<R: Wait>(rt: &R, alloc: Global, owners: &Owners, mut seat: OwnerSeat) -> (OwnerSeat, u64)
    requires { seat.lock ≡ owners.now }
    ensures { Keeps owners.now seat result.0 }
{
    let mut good = 0u64;
    for _ in 0..ROUNDS {
        if one_round(rt, alloc, owners, &mut seat) {
            good = good.wrapping_add(1);
        }
    }
    (seat, good)
}

fn both<R: Threads + Wait + Sync>(
    rt: &R,
    alloc: Global,
    owners: &Owners,
    one: OwnerSeat,
    two: OwnerSeat,
) -> (OwnerSeat, OwnerSeat, bool)
    requires one { one.lock ≡ owners.now }
    requires two { two.lock ≡ owners.now }
    ensures one { Keeps owners.now one result.0 }
    ensures two { Keeps owners.now two result.1 }
{
    let ((one, first), (two, second)) = join(
        rt,
        move || -> (OwnerSeat, u64)
            requires { one.lock ≡ owners.now }
            ensures { Keeps owners.entry.now one result.0 }
        { rounds(rt, alloc, owners, one) },
        move || -> (OwnerSeat, u64)
            requires { two.lock ≡ owners.now }
            ensures { Keeps owners.entry.now two result.0 }
        { rounds(rt, alloc, owners, two) },
    );
    (one, two, first == ROUNDS && second == ROUNDS)
}

fn watched<R: Wait>(
    rt: &R,
    alloc: Global,
    owners: &Owners,
    seat: &mut OwnerSeat,
) -> Result<Standing, OwnerFault>
    requires { seat.old.lock ≡ owners.now }
    ensures { Keeps owners.now seat.old seat.new }
{
    let kind = text(alloc, "sw")?;
    match owners.watch(rt, alloc, seat, kind) {
        Ok(list) => standing(alloc, &list),
        Err(fault) => Err(fault),
    }
}

fn standing(alloc: Global, list: &OwnedList) -> Result<Standing, OwnerFault> {
    let kind = text(alloc, "sw")?;
    match Standing::open(alloc, list, kind) {
        Ok(it) => Ok(it),
        Err(NoMemory) => Err(OwnerFault::NoMemory),
    }
}

// Whether the copy took the changes.
fn is_up<R: Wait>(
    rt: &R,
    alloc: Global,
    owners: &Owners,
    seat: &mut OwnerSeat,
    copy: &mut Standing,
) -> bool
    requires { seat.old.lock ≡ owners.now }
    ensures { Keeps owners.now seat.old seat.new }
{
    match owners.changes(rt, alloc, seat) {
        Ok(changes) => copy.take(alloc, &changes).is_ok(),
        Err(_) => false,
    }
}

fn opened(alloc: Global) -> Result<(Owners, OwnerSeat), OwnerFault>
    ensures { IfOk result (λ r. (r.1.lock ≡ r.0) × (r.1.view ≡ opener 65535 tt)) }
{
    match Owners::open(alloc) {
        Ok(it) => Ok(it),
        Err(NoMemory) => Err(OwnerFault::NoMemory),
    }
}

// The closed book, the copy, and whether each call succeeded. Once both threads are done one of them registers for good.
fn run<R: Threads + Wait + Sync>(
    rt: &R,
    alloc: Global,
) -> Result<(OwnerBook, Standing, bool), OwnerFault> {
    let (owners, mut opening) = opened(alloc)?;
    let mut copy = watched(rt, alloc, &owners, &mut opening)?;
    let one = owners.split(&mut opening, 1);
    let two = owners.split(&mut opening, 2);
    let (mut one, two, good) = both(rt, alloc, &owners, one, two);
    let came = move_by(rt, alloc, &owners, &mut one, true).is_ok();
    let up = is_up(rt, alloc, &owners, &mut opening, &mut copy);
    let seat = owners.join(opening, one);
    let seat = owners.join(seat, two);
    Ok((owners.close(seat), copy, good && came && up))
}

// Who owns the one entity at the end of the log, by a walk over it.
fn owner_by(log: &[OwnerEntry]) -> Option<u32> {
    let mut owner: Option<u32> = None;
    let mut other: Option<u32> = None;
    for entry in log {
        match entry.call {
            OwnerCall::Register(_) => {
                if owner.is_none() {
                    owner = Some(entry.client);
                } else {
                    other = Some(entry.client);
                }
            }
            OwnerCall::Unregister(_) => {
                if owner == Some(entry.client) {
                    owner = other;
                }
                other = None;
            }
            _ => {}
        }
    }
    owner
}

#[test]
fn two_threads_come_to_one_owner(rt: HostRuntime) -> Result<(), Fail> {
    let Ok((book, copy, good)) = run(&rt, rt.alloc()) else {
        return Err("a call".into());
    };
    if !good || book.log().len() != 2003 {
        return Err("a call was refused".into());
    }
    if owner_by(book.log()) != Some(1) || copy.state("s1") != OwnershipState::OwnedByOther {
        return Err("another owner".into());
    }
    Ok(())
}
