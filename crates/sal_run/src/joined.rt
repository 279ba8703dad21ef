//! Seats for all clients, and their seats joined again.
ghost use Rattle.std.specs.Prelude.{◌≡◌, ◌⊎◌, ◌<◌, ◌++◌, ℕ, [], ◌∷◌, Ok, Err, IfOk, IsSome, OnOk, length, map, true, slice_get, Some};
ghost use Rattle.sal_hub.specs.HubHistory.{HubHistory};
ghost use Rattle.sal_broker.specs.Seats.{inside};
ghost use Rattle.sal_client.specs.Clients.{IsSound, client_of};
ghost use Rattle.sal_client.specs.Runs.{replies_in};
ghost use Rattle.sal_script.specs.Play.{new_client};
ghost use Rattle.sal_turn.specs.Lists.{In};
ghost use Rattle.sal_turn.specs.Views.{newcomer};
ghost use Rattle.sal_run.specs.Joined.{AreSeated, IsSeated, Collects, Joins, upto, with_replies};

use crate::clients::{SeatedRun, seat_in};
use sal_broker::{Sal, Seat};
use sal_client::{ClientRun, RunFault};
use sal_script::StepReply;
use sal_types::{NoMemory, Seq};
use std::alloc::Global;

/// The clients' replies, in the order of their numbers, or why one of them stopped.
pub(crate) type Replies = Result<Seq<Seq<StepReply>>, RunFault>;

// A client before its first step, with a new seat of its number.
fn seated(alloc: Global, sal: &Sal, opening: &mut Seat, number: u32) -> SeatedRun
    requires lock { opening.old.lock ≡ sal.now }
    requires may_split { opening.old.view.splits ≡ true }
    requires new { ¬ In number opening.old.view.given }
    ensures giver { (opening.new.lock ≡ sal.now) × (opening.new.view ≡ record opening.old.view { given = opening.old.view.given ++ number ∷ [] }) }
    ensures seated { IsSeated sal.now opening.old.view number result }
{
    SeatedRun {
        run: ClientRun::new(alloc, number),
        seat: Some(sal.split(opening, number)),
        end: Ok(()),
    }
}

/// The clients of this many numbers before their first steps, each with a seat split from the opening one, which has given no number yet.
pub(crate) fn seat_all(
    alloc: Global,
    sal: &Sal,
    opening: &mut Seat,
    clients: u32,
) -> Result<Vec<SeatedRun>, NoMemory>
    requires lock { opening.old.lock ≡ sal.now }
    requires may_split { opening.old.view.splits ≡ true }
    requires given { opening.old.view.given ≡ 65535 ∷ [] }
    requires few { clients < 65535 }
    ensures giver { OnOk result ((opening.new.lock ≡ sal.now) × (opening.new.view ≡ record opening.old.view { given = 65535 ∷ upto clients })) }
    ensures seated { IfOk result (λ v. AreSeated sal.now opening.old.view clients v.items) }
{
    let mut runs = Vec::new(alloc);
    for number in 0..clients {
        runs.push(seated(alloc, sal, opening, number))?;
    }
    Ok(runs)
}

// The replies of one more client, after the others.
fn with_next(replies: Replies, run: ClientRun, end: Result<(), RunFault>) -> Replies
    ensures { (result ≡ with_replies replies end (replies_in run)) ⊎ (result ≡ Err RunFault.NoMemory) }
{
    match (replies, end) {
        (Ok(list), Ok(())) => pushed(list, run.into_replies()),
        (Ok(_), Err(fault)) => Err(fault),
        (Err(fault), _) => Err(fault),
    }
}

fn pushed(list: Seq<Seq<StepReply>>, replies: Seq<StepReply>) -> Replies
    ensures { (result ≡ Ok (list ++ replies ∷ [])) ⊎ (result ≡ Err RunFault.NoMemory) }
{
    let mut items = list.into_items();
    match items.push(replies) {
        Ok(()) => Ok(Seq::from_items(items)),
        Err(_) => Err(RunFault::NoMemory),
    }
}

/// Joins the seats of all clients to the first one, in their order.
pub(crate) fn join_all(
    alloc: Global,
    sal: &Sal,
    mut seat: Seat,
    finished: Vec<SeatedRun>,
) -> (Seat, Replies)
    requires lock { seat.lock ≡ sal.now }
    requires none { seat.view.joined ≡ [] }
    requires others { (i : ℕ) (f : SeatedRun) → slice_get finished.items i ≡ Some f → IsSome f.seat × ((inside f.seat).lock ≡ sal.now) × ((inside f.seat).view.joined ≡ []) }
    ensures joins { Joins sal.now seat.view finished.items result.0 }
    ensures collects { Collects finished.items result.1 }
{
    let mut replies = Ok(Seq::new(alloc));
    for SeatedRun {
        run,
        seat: place,
        end,
    } in finished {
        seat = sal.join(seat, seat_in(place));
        replies = with_next(replies, run, end);
    }
    (seat, replies)
}
