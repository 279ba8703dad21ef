//! Listeners to the configuration of the controller's own domain, and marks.
ghost use Rattle.std.specs.Prelude.{◌≡◌, IfSome};
ghost use Rattle.sal_hub.specs.Tokens.{IsListener};
ghost use Rattle.sal_broker.specs.Seats.{known};
ghost use Rattle.sal_broker.specs.Turns.{Keeps};

use crate::opened::{Desk, let_go, yes};
use crate::transactions::committed;
use sal_broker::Seat;
use sal_hub::{ListenerId, Seen};
use sal_rows::{Batch, CallFault};
use sal_types::Store;
use std::sync::Wait;

// A listener, and the commit of its opening.
fn listened<R: Wait>(at: &Desk<'_, R>, seat: &mut Seat) -> Option<(ListenerId, u64)>
    requires { seat.old.lock ≡ at.now.sal.now }
    ensures same { Keeps at.now.sal.now seat.old seat.new }
    ensures token { IfSome result (λ made. IsListener (known seat.new.view) made.0) }
{
    match at
        .sal
        .listen(at.rt, at.alloc, seat, 0, Store::Config, at.top)
    {
        Ok((id, opened)) => {
            let version = opened.version;
            let_go(opened);
            Some((id, version))
        }
        Err(_) => None,
    }
}

// The commits of the batch, first and last.
fn ends_of(answer: &Result<Batch, CallFault>) -> [u64; 2] {
    match answer {
        Ok(batch) => [batch.from, batch.to],
        Err(_) => [0, 0],
    }
}

fn taken<R: Wait>(at: &Desk<'_, R>, seat: &mut Seat, id: ListenerId) -> [u64; 2]
    requires lock { seat.old.lock ≡ at.now.sal.now }
    requires token { IsListener (known seat.old.view) id }
    ensures { Keeps at.now.sal.now seat.old seat.new }
{
    let answer = at.sal.take(at.rt, at.alloc, seat, id);
    let ends = ends_of(&answer);
    let_go(answer);
    ends
}

/// A listener of the first seat, which takes a commit of the second one: `listen`, `take`. The listener's number, its first commit, the
/// receipt and the number of the commit, and the ends of the batch.
pub(crate) fn told<R: Wait>(at: &Desk<'_, R>, one: &mut Seat, two: &mut Seat) -> [u64; 6]
    requires { (one.old.lock ≡ at.now.sal.now) × (two.old.lock ≡ at.now.sal.now) }
    ensures one { Keeps at.now.sal.now one.old one.new }
    ensures two { Keeps at.now.sal.now two.old two.new }
{
    match listened(at, one) {
        Some((id, version)) => {
            let [receipt, commit] = committed(at, two);
            let [from, to] = taken(at, one, id);
            [id.number(), version, receipt, commit, from, to]
        }
        None => [0; 6],
    }
}

/// A listener that is removed: `listen`, `unlisten`. Its number, its first commit, and 1.
pub(crate) fn removed<R: Wait>(at: &Desk<'_, R>, seat: &mut Seat) -> [u64; 3]
    requires { seat.old.lock ≡ at.now.sal.now }
    ensures { Keeps at.now.sal.now seat.old seat.new }
{
    match listened(at, seat) {
        Some((id, version)) => [
            id.number(),
            version,
            yes(at.sal.unlisten(at.rt, at.alloc, seat, id)),
        ],
        None => [0; 3],
    }
}

/// A mark that is set and found: `mark`, `after`.
pub(crate) fn found<R: Wait>(at: &Desk<'_, R>, seat: &mut Seat) -> [u64; 2]
    requires { seat.old.lock ≡ at.now.sal.now }
    ensures { Keeps at.now.sal.now seat.old seat.new }
{
    let marked = yes(at.sal.mark(at.rt, at.alloc, seat, 5));
    match at.sal.after(at.rt, at.alloc, seat, 5) {
        Ok(Seen::Found) => [marked, 1],
        _ => [marked, 0],
    }
}
