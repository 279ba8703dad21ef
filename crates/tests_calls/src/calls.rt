//! All calls, in one order, with two seats.
ghost use Rattle.std.specs.Prelude.{◌≡◌};
ghost use Rattle.sal_broker.specs.Seats.{known};
ghost use Rattle.sal_broker.specs.Turns.{Keeps};
ghost use Rattle.sal_hub.specs.Upgrades.{upgrades_of};
ghost use Rattle.tests_calls.specs.Ready.{IsOpened};

use crate::listening::{found, removed, told};
use crate::opened::{Desk, let_go, opened};
use crate::services::{mounted, notified, provided, requested, upgraded, withdrawn};
use crate::transactions::{chained, closed, committed, given_up, pumped};
use sal_broker::Seat;
use sal_types::Path;
use std::alloc::Global;
use std::sync::Wait;
use std::test::Fail;

// The results of the calls of one client: 1 for a result without a number.
const ALONE: [(&str, u64); 22] = [
    ("upgrade", 1),
    ("begin", 1),
    ("cancel", 1),
    ("submit: its receipt", 1),
    ("settle: its commit", 1),
    ("open_chain: its number", 1),
    ("submit in a chain: its receipt", 2),
    ("pump: the receipt", 2),
    ("pump: its commit", 2),
    ("pump again: no receipt", 0),
    ("pump again: no commit", 0),
    ("open_chain again: its number", 2),
    ("close_chain", 1),
    ("listen: its number", 1),
    ("listen: the newest commit", 2),
    ("unlisten", 1),
    ("mark", 1),
    ("after: the mark is found", 1),
    ("mount", 1),
    ("mount_at: domain 1, and 1", 2),
    ("unmount", 1),
    ("mount_at again: none", 0),
];

// Those of two clients.
const TOGETHER: [(&str, u64); 17] = [
    ("listen: its number", 2),
    ("listen: the newest commit", 2),
    ("submit: its receipt", 3),
    ("settle: its commit", 3),
    ("take: from commit", 2),
    ("take: to commit", 3),
    ("provide", 1),
    ("invoke: its number", 1),
    ("next_call: its number", 1),
    ("next_call: its RPC", 2),
    ("answer", 1),
    ("collect: rows", 1),
    ("withdraw", 1),
    ("subscribe", 1),
    ("offer: subscribers", 1),
    ("take_notes: notifications", 1),
    ("take_notes: the number of the first", 7),
];

// An entry of each call.
const ENTRIES: u64 = 35;

// The calls of one seat.
fn alone<R: Wait>(at: &Desk<'_, R>, seat: &mut Seat) -> [u64; 22]
    requires lock { seat.old.lock ≡ at.now.sal.now }
    requires version { upgrades_of (known seat.old.view).world ≡ 1 }
    ensures { Keeps at.now.sal.now seat.old seat.new }
{
    let upgrade = upgraded(at, seat);
    let [begin, cancel] = given_up(at, seat);
    let [submit, settle] = committed(at, seat);
    let [chain, chained] = chained(at, seat);
    let [receipt, commit] = pumped(at, seat);
    let [no_receipt, no_commit] = pumped(at, seat);
    let [other_chain, close] = closed(at, seat);
    let [listener, version, unlisten] = removed(at, seat);
    let [mark, after] = found(at, seat);
    let [mount, there, unmount, gone] = mounted(at, seat);
    [
        upgrade,
        begin,
        cancel,
        submit,
        settle,
        chain,
        chained,
        receipt,
        commit,
        no_receipt,
        no_commit,
        other_chain,
        close,
        listener,
        version,
        unlisten,
        mark,
        after,
        mount,
        there,
        unmount,
        gone,
    ]
}

// The calls of two seats.
fn together<R: Wait>(at: &Desk<'_, R>, one: &mut Seat, two: &mut Seat) -> [u64; 17]
    requires { (one.old.lock ≡ at.now.sal.now) × (two.old.lock ≡ at.now.sal.now) }
    ensures one { Keeps at.now.sal.now one.old one.new }
    ensures two { Keeps at.now.sal.now two.old two.new }
{
    let [listener, version, submit, settle, from, to] = told(at, one, two);
    let provide = provided(at, one);
    let [invoke, next, rpc, answer, collect] = requested(at, one, two);
    let withdraw = withdrawn(at, one);
    let [subscribe, offer, notes, note] = notified(at, one, two);
    [
        listener, version, submit, settle, from, to, provide, invoke, next, rpc, answer, collect,
        withdraw, subscribe, offer, notes, note,
    ]
}

// The length of the log, by a turn of the caller.
fn entered<R: Wait>(at: &Desk<'_, R>, seat: Seat) -> u64
    requires { seat.lock ≡ at.now.sal.now }
{
    let mut held = at.sal.enter(at.rt, seat);
    let entries = held.hub().log().len() as u64;
    let_go(at.sal.leave(held));
    entries
}

// The name of a result that differs from the wanted one, if any.
fn wrong(found: &[u64], wanted: &[(&'static str, u64)]) -> Option<&'static str> {
    if found.len() != wanted.len() {
        return Some("the count");
    }
    for (number, (name, right)) in found.iter().zip(wanted) {
        if *number != *right {
            return Some(*name);
        }
    }
    None
}

// The first answer that differs, of all calls at a new broker.
fn first_wrong<R: Wait>(at: &Desk<'_, R>, mut one: Seat) -> Option<&'static str>
    requires { IsOpened at.now.sal.now one }
{
    let mut two = at.sal.split(&mut one, 1);
    let alone = alone(at, &mut one);
    let together = together(at, &mut one, &mut two);
    let_go(two);
    let entries = entered(at, one);
    if let Some(name) = wrong(&alone, &ALONE) {
        return Some(name);
    }
    if let Some(name) = wrong(&together, &TOGETHER) {
        return Some(name);
    }
    if entries != ENTRIES {
        return Some("enter: entries of the log");
    }
    None
}

// The same, with the broker. Nothing is dropped: each drop would need another proof.
fn tried<R: Wait>(rt: &R, alloc: Global) -> Option<&'static str> {
    match opened(alloc) {
        Some((sal, seat)) => {
            let top = Path::root(alloc);
            let found = first_wrong(
                &Desk {
                    rt,
                    alloc,
                    sal: &sal,
                    top: &top,
                },
                seat,
            );
            let_go(top);
            let_go(sal);
            found
        }
        None => Some("open"),
    }
}

#[test]
fn each_call_is_answered(rt: HostRuntime) -> Result<(), Fail> {
    match tried(&rt, rt.alloc()) {
        None => Ok(()),
        Some(name) => Err(name.into()),
    }
}
