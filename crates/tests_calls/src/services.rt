//! RPCs, notifications, mounts, and the upgrade of the schema. Messages have no rows.
ghost use Rattle.std.specs.Prelude.{◌≡◌, ◌≤◌, IfSome};
ghost use Rattle.sal_hub.specs.Tokens.{IsCall};
ghost use Rattle.sal_hub.specs.Upgrades.{upgrades_of};
ghost use Rattle.sal_broker.specs.Seats.{known};
ghost use Rattle.sal_broker.specs.Turns.{Keeps};

use crate::opened::{Desk, let_go, yes};
use sal_broker::Seat;
use sal_hub::CallId;
use sal_note::NoteList;
use sal_rows::{CallFault, Rows};
use sal_rpc::Request;
use std::sync::Wait;

// The number of an RPC, and that of a notification.
const PING: u32 = 2;

const ALARM: u32 = 7;

// ---- RPCs

fn asked<R: Wait>(at: &Desk<'_, R>, seat: &mut Seat) -> Option<CallId>
    requires { seat.old.lock ≡ at.now.sal.now }
    ensures same { Keeps at.now.sal.now seat.old seat.new }
    ensures token { IfSome result (IsCall (known seat.new.view)) }
{
    let input = Rows::new(at.alloc);
    match at.sal.invoke(at.rt, at.alloc, seat, PING, None, input) {
        Ok(id) => Some(id),
        Err(_) => None,
    }
}

// The number of the request, and its RPC.
fn request_in(answer: &Result<Option<Request>, CallFault>) -> [u64; 2] {
    match answer {
        Ok(Some(request)) => [request.id, u64::from(request.rpc)],
        _ => [0, 0],
    }
}

fn next<R: Wait>(at: &Desk<'_, R>, seat: &mut Seat) -> [u64; 2]
    requires { seat.old.lock ≡ at.now.sal.now }
    ensures { Keeps at.now.sal.now seat.old seat.new }
{
    let answer = at.sal.next_call(at.rt, at.alloc, seat);
    let request = request_in(&answer);
    let_go(answer);
    request
}

// The first request is taken, and answered: its number, its RPC, and 1.
fn answered<R: Wait>(at: &Desk<'_, R>, seat: &mut Seat) -> [u64; 3]
    requires { seat.old.lock ≡ at.now.sal.now }
    ensures { Keeps at.now.sal.now seat.old seat.new }
{
    let [id, rpc] = next(at, seat);
    let output = Rows::new(at.alloc);
    [
        id,
        rpc,
        yes(at.sal.answer(at.rt, at.alloc, seat, id, output)),
    ]
}

// 1 for rows.
fn are_rows(answer: &Result<Option<Rows>, CallFault>) -> u64 {
    match answer {
        Ok(Some(_)) => 1,
        _ => 0,
    }
}

fn collected<R: Wait>(at: &Desk<'_, R>, seat: &mut Seat, id: CallId) -> u64
    requires lock { seat.old.lock ≡ at.now.sal.now }
    requires token { IsCall (known seat.old.view) id }
    ensures { Keeps at.now.sal.now seat.old seat.new }
{
    let answer = at.sal.collect(at.rt, at.alloc, seat, id);
    let rows = are_rows(&answer);
    let_go(answer);
    rows
}

/// A request of the second seat, which the first one answers: `invoke`, `next_call`, `answer`, `collect`. Its number for the one who made
/// it; its number and RPC for the one who took it; 1 for the answer, and 1 for its rows.
pub(crate) fn requested<R: Wait>(at: &Desk<'_, R>, one: &mut Seat, two: &mut Seat) -> [u64; 5]
    requires { (one.old.lock ≡ at.now.sal.now) × (two.old.lock ≡ at.now.sal.now) }
    ensures one { Keeps at.now.sal.now one.old one.new }
    ensures two { Keeps at.now.sal.now two.old two.new }
{
    match asked(at, two) {
        Some(id) => {
            let [taken, rpc, answer] = answered(at, one);
            [id.number(), taken, rpc, answer, collected(at, two, id)]
        }
        None => [0; 5],
    }
}

/// The registration for the RPC: `provide`.
pub(crate) fn provided<R: Wait>(at: &Desk<'_, R>, seat: &mut Seat) -> u64
    requires { seat.old.lock ≡ at.now.sal.now }
    ensures { Keeps at.now.sal.now seat.old seat.new }
{
    yes(at.sal.provide(at.rt, at.alloc, seat, PING, None))
}

/// Its end: `withdraw`.
pub(crate) fn withdrawn<R: Wait>(at: &Desk<'_, R>, seat: &mut Seat) -> u64
    requires { seat.old.lock ≡ at.now.sal.now }
    ensures { Keeps at.now.sal.now seat.old seat.new }
{
    yes(at.sal.withdraw(at.rt, at.alloc, seat, PING, None))
}

// ---- notifications

// How many there are, and the number of the first one.
fn notes_in(answer: &Result<NoteList, CallFault>) -> [u64; 2] {
    match answer {
        Ok(notes) => match notes.items() {
            [note, ..] => [notes.items().len() as u64, u64::from(note.note)],
            [] => [0, 0],
        },
        Err(_) => [0, 0],
    }
}

fn taken<R: Wait>(at: &Desk<'_, R>, seat: &mut Seat) -> [u64; 2]
    requires { seat.old.lock ≡ at.now.sal.now }
    ensures { Keeps at.now.sal.now seat.old seat.new }
{
    let answer = at.sal.take_notes(at.rt, at.alloc, seat);
    let notes = notes_in(&answer);
    let_go(answer);
    notes
}

// The number of subscribers that got it.
fn offered<R: Wait>(at: &Desk<'_, R>, seat: &mut Seat) -> u64
    requires { seat.old.lock ≡ at.now.sal.now }
    ensures { Keeps at.now.sal.now seat.old seat.new }
{
    let level = Rows::new(at.alloc);
    match at.sal.offer(at.rt, at.alloc, seat, ALARM, level) {
        Ok(count) => u64::from(count),
        Err(_) => 0,
    }
}

/// A notification of the second seat, which the first one takes: `subscribe`, `offer`, `take_notes`. 1, how many have got it, how many are
/// taken, and the number of the first.
pub(crate) fn notified<R: Wait>(at: &Desk<'_, R>, one: &mut Seat, two: &mut Seat) -> [u64; 4]
    requires { (one.old.lock ≡ at.now.sal.now) × (two.old.lock ≡ at.now.sal.now) }
    ensures one { Keeps at.now.sal.now one.old one.new }
    ensures two { Keeps at.now.sal.now two.old two.new }
{
    let subscribed = yes(at.sal.subscribe(at.rt, at.alloc, one, ALARM));
    let count = offered(at, two);
    let [notes, number] = taken(at, one);
    [subscribed, count, notes, number]
}

// ---- mounts

// The domain that is mounted at the root, plus 1; 0 if none is.
fn looked<R: Wait>(at: &Desk<'_, R>, seat: &mut Seat) -> u64
    requires { seat.old.lock ≡ at.now.sal.now }
    ensures { Keeps at.now.sal.now seat.old seat.new }
{
    match at.sal.mount_at(at.rt, at.alloc, seat, at.top) {
        Ok(Some(domain)) => u64::from(domain) + 1,
        _ => 0,
    }
}

/// The device is mounted at the root, found there, unmounted, and no longer found: `mount`, `mount_at`, `unmount`, `mount_at`.
pub(crate) fn mounted<R: Wait>(at: &Desk<'_, R>, seat: &mut Seat) -> [u64; 4]
    requires { seat.old.lock ≡ at.now.sal.now }
    ensures { Keeps at.now.sal.now seat.old seat.new }
{
    let mounted = yes(at.sal.mount(at.rt, at.alloc, seat, at.top, 1));
    let there = looked(at, seat);
    let unmounted = yes(at.sal.unmount(at.rt, at.alloc, seat, 1));
    [mounted, there, unmounted, looked(at, seat)]
}

// ---- versions

/// The schema of the controller's own domain is upgraded to its second version: `upgrade`.
pub(crate) fn upgraded<R: Wait>(at: &Desk<'_, R>, seat: &mut Seat) -> u64
    requires lock { seat.old.lock ≡ at.now.sal.now }
    requires version { 1 ≤ upgrades_of (known seat.old.view).world }
    ensures { Keeps at.now.sal.now seat.old seat.new }
{
    yes(at.sal.upgrade(at.rt, at.alloc, seat, 1))
}
