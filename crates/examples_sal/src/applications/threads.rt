//! The two applications on their threads.
ghost use Rattle.std.specs.Prelude.{◌≡◌, IfOk};
ghost use Rattle.sal.specs.Opening.{IsOpening};
ghost use Rattle.sal.specs.Turns.{Keeps};

use super::application::take_numbers;
use super::listener::Listener;
use crate::counter::{Counter, LAST_NUMBER, device, number_in, schema};
use sal::{Hub, Path, Rules, Sal, Seat};
use std::alloc::Global;
use std::sync::{Arc, Wait};
use std::thread::{Threads, join};

/// The result when both applications are done.
#[derive(Drop)]
pub(crate) struct End {
    /// The number in the counter.
    pub(crate) last: u64,
    /// How many commits there are.
    pub(crate) commits: u64,
    /// How many commits the listener took.
    pub(crate) told: usize,
    /// Whether the listener's mirror is the committed tree.
    pub(crate) is_mirrored: bool,
}

/// Opens a broker for the applications, lets them take their numbers, and returns the result.
pub(crate) fn share<R: Threads + Wait + Sync>(rt: &R, alloc: Global) -> anyhow::Result<End> {
    let schema = Arc::new(alloc, schema(alloc)?)?;
    let counter = Counter::at(alloc, &schema, LAST_NUMBER)?;
    let devices = vec![in alloc; device(alloc, &schema)?]?;
    let (sal, opening) = Sal::open(alloc, devices, Rules::One)?;
    run(rt, alloc, sal, opening, &counter)
}

// The opening seat listens from before both applications until after them.
fn run<R: Threads + Wait + Sync>(
    rt: &R,
    alloc: Global,
    sal: Sal,
    mut opening: Seat,
    counter: &Counter,
) -> anyhow::Result<End>
    requires lock { opening.lock ≡ sal }
    requires opening { IsOpening opening.view }
{
    let mut listener = Listener::open(rt, alloc, &sal, &mut opening)?;
    let first = sal.split(&mut opening, 1);
    let second = sal.split(&mut opening, 2);
    let (first, second) = both(rt, alloc, &sal, counter, first, second)?;
    let told = listener.take(rt, alloc, &sal, &mut opening)?;
    let joined = sal.join(opening, first);
    let all = sal.join(joined, second);
    let hub = sal.close(all);
    end_of(alloc, &hub, counter, &listener, told)
}

// Each application with its seat on a separate thread, until both are done.
fn both<R: Threads + Wait + Sync>(
    rt: &R,
    alloc: Global,
    sal: &Sal,
    counter: &Counter,
    one: Seat,
    two: Seat,
) -> anyhow::Result<(Seat, Seat)>
    requires locks { (one.lock ≡ sal.now) × (two.lock ≡ sal.now) }
    ensures first { IfOk result (λ seats. Keeps sal.now one seats.0) }
    ensures second { IfOk result (λ seats. Keeps sal.now two seats.1) }
{
    let (one, two) = join(
        rt,
        move || -> anyhow::Result<Seat>
            requires { one.lock ≡ sal.now }
            ensures { IfOk result (λ back. Keeps sal.entry.now one back) }
        { take_numbers(rt, alloc, sal, one, counter) },
        move || -> anyhow::Result<Seat>
            requires { two.lock ≡ sal.now }
            ensures { IfOk result (λ back. Keeps sal.entry.now two back) }
        { take_numbers(rt, alloc, sal, two, counter) },
    );
    Ok((one?, two?))
}

fn end_of(
    alloc: Global,
    hub: &Hub,
    counter: &Counter,
    listener: &Listener,
    told: usize,
) -> anyhow::Result<End> {
    let config = &hub.trees().config;
    let committed = config.rows(alloc, &Path::root(alloc))?;
    let is_mirrored = listener.shows(alloc, &committed)?;
    Ok(End {
        last: number_in(&committed),
        commits: hub.newest(),
        told,
        is_mirrored,
    })
}
