//! One client at its seat.
ghost use Rattle.std.specs.Prelude.{◌≡◌, ◌≤◌, ◌<◌, Ok, Err, OnOk, true, false, length};
ghost use Rattle.sal_broker.specs.Turns.{Keeps};
ghost use Rattle.sal_client.specs.Runs.{asking, run_of};
ghost use Rattle.sal_client.specs.Wishes.{CanMake, ReadBy};
ghost use Rattle.sal_hub.specs.Answers.{limit};
ghost use Rattle.sal_run.specs.Looked.{Looked, LooksFor};
ghost use Rattle.sal_run.specs.Stands.{Enters, HasEnded, Stands};

use sal_broker::{Held, Sal, Seat};
use sal_client::{ClientRun, Readers, RunFault, Wish};
use sal_hub::laws;
use sal_io::Gate;
use sal_script::ScriptStep;
use sal_types::NoMemory;
use std::alloc::Global;
use std::sync::Wait;

// The number of turns within which each client reaches its end: one for each of its steps, and one more.
const MOST_TURNS: usize = 60001;

/// The environment in which a client runs its program.
#[derive(Drop)]
pub(crate) struct Worker<'a, G> {
    pub(crate) sal: &'a Sal,
    pub(crate) readers: &'a Readers,
    pub(crate) steps: &'a [ScriptStep],
    pub(crate) gate: &'a G,
}

impl<'a, G: Gate> Worker<'a, G> {
    // The turn for the call: the next one; for a look for a mark one at which the mark was set, or the last of all looks.
    fn turn_for<R: Wait>(&self, rt: &R, seat: Seat, wish: &Wish) -> Held
        requires { seat.lock ≡ self.now.sal.now }
        ensures enters { Enters self.now.sal.now seat.view result }
        ensures looks { LooksFor wish.now seat.view result }
    {
        match wish {
            Wish::After { mark } => self.sal.enter_after(rt, seat, *mark),
            _ => self.sal.enter(rt, seat),
        }
    }

    // Makes the call in one turn. True, unless that stops the client.
    fn call<R: Wait>(
        &self,
        rt: &R,
        alloc: Global,
        run: &mut ClientRun,
        seat: Seat,
        wish: Wish,
    ) -> (Seat, Result<bool, RunFault>)
        requires lock { seat.lock ≡ self.now.sal.now }
        requires stands { Stands self.now.readers.now self.now.steps.now seat.view run.old (asking wish self.now.steps.now run.old) }
        requires can { CanMake wish run.old.client }
        requires read { ReadBy self.now.readers.now wish }
        requires room { length seat.view.own < run.old.at }
        ensures same { Keeps self.now.sal.now seat result.0 }
        ensures few { length result.0.view.own ≤ run.old.at }
        ensures number { OnOk result.1 (run.new.client.number ≡ run.old.client.number) }
        ensures at { OnOk result.1 (run.new.at ≡ run.old.at) }
        ensures goes { result.1 ≡ Ok true → Stands self.now.readers.now self.now.steps.now result.0.view run.new (run_of self.now.steps.now run.new) }
        ensures made { result.1 ≡ Ok false → ⊥ }
        ensures full { result.1 ≡ Err RunFault.HistoryFull → limit ≤ length result.0.view.seen }
        ensures looks { OnOk result.1 (Looked seat.view result.0.view) }
    {
        laws::tokens_last();
        let mut held = self.turn_for(rt, seat, &wish);
        let made = run.make(alloc, held.hub(), wish);
        let seat = self.sal.leave(held);
        match made {
            Ok(()) => (seat, Ok(true)),
            Err(fault) => (seat, Err(fault)),
        }
    }

    // Proceeds to the next shared call and makes it. False if the program ends first.
    fn go<R: Wait>(
        &self,
        rt: &R,
        alloc: Global,
        run: &mut ClientRun,
        seat: Seat,
    ) -> (Seat, Result<bool, RunFault>)
        requires lock { seat.lock ≡ self.now.sal.now }
        requires stands { Stands self.now.readers.now self.now.steps.now seat.view run.old (run_of self.now.steps.now run.old) }
        requires room { length seat.view.own ≤ run.old.at }
        ensures same { Keeps self.now.sal.now seat result.0 }
        ensures few { length result.0.view.own ≤ length self.now.steps.now }
        ensures calls { result.1 ≡ Ok true → length result.0.view.own ≤ run.new.at }
        ensures number { OnOk result.1 (run.new.client.number ≡ run.old.client.number) }
        ensures on { result.1 ≡ Ok true → run.old.at < run.new.at }
        ensures goes { result.1 ≡ Ok true → Stands self.now.readers.now self.now.steps.now result.0.view run.new (run_of self.now.steps.now run.new) }
        ensures ended { result.1 ≡ Ok false → HasEnded self.now.readers.now self.now.steps.now result.0.view run.new }
        ensures full { result.1 ≡ Err RunFault.HistoryFull → limit ≤ length result.0.view.seen }
        ensures looks { OnOk result.1 (Looked seat.view result.0.view) }
    {
        laws::tokens_last();
        match run.next(alloc, self.readers, self.steps, self.gate) {
            Ok(Some(wish)) => self.call(rt, alloc, run, seat, wish),
            Ok(None) => (seat, Ok(false)),
            Err(NoMemory) => (seat, Err(RunFault::NoMemory)),
        }
    }

    /// Runs the program to its end, or to the call at which the client stops.
    #[tactic(auto, using(crate::proofs::Looking::looked_on))]
    pub(crate) fn work<R: Wait>(
        &self,
        rt: &R,
        alloc: Global,
        run: &mut ClientRun,
        mut seat: Seat,
    ) -> (Seat, Result<(), RunFault>)
        requires lock { seat.lock ≡ self.now.sal.now }
        requires stands { Stands self.now.readers.now self.now.steps.now seat.view run.old (run_of self.now.steps.now run.old) }
        requires room { length seat.view.own ≤ run.old.at }
        ensures same { Keeps self.now.sal.now seat result.0 }
        ensures few { length result.0.view.own ≤ length self.now.steps.now }
        ensures ended { OnOk result.1 (HasEnded self.now.readers.now self.now.steps.now result.0.view run.new) }
        ensures full { result.1 ≡ Err RunFault.HistoryFull → limit ≤ length result.0.view.seen }
        ensures looks { OnOk result.1 (Looked seat.view result.0.view) }
    {
        for _turn in 0..MOST_TURNS {
            let (next, went) = self.go(rt, alloc, run, seat);
            seat = next;
            match went {
                Ok(true) => {}
                Ok(false) => return (seat, Ok(())),
                Err(fault) => return (seat, Err(fault)),
            }
        }
        unreachable!()
    }
}
