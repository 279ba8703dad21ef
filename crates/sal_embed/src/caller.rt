//! A client of an embedded broker: its run, and the lines of its steps.
ghost use Rattle.std.specs.Prelude.{◌≡◌, ◌≤◌, ◌+◌, ◌++◌, [], ◌∷◌, IfErr, IfOk, IsTrue, MatchOption, OnErr, OnOk, length, string_bytes};
ghost use Rattle.std.specs.Option.{is_some};
ghost use Rattle.sal_client.specs.Wishes.{GrowsAtMost};
ghost use Rattle.sal_hub.specs.HubHistory.{HubHistory};
ghost use Rattle.sal_prepare.specs.Scripted.{tables_in};
ghost use Rattle.sal_script.specs.JsonMoves.{is_json_move};
ghost use Rattle.sal_script.specs.Moves.{move_of};
ghost use Rattle.sal_script.specs.Tables.{tables_of, versions_of};
ghost use Rattle.sal_embed.specs.Broker.{Follows, IsCaller, untold};
ghost use Rattle.sal_embed.specs.Callers.{Fails, IsFinished, IsForgotten, IsFresh, IsLetGo, IsMade, IsTold, Steps, Waits, line_with};
ghost use Rattle.sal_embed.specs.Waiting.{waiting_for};

use crate::fault::StepFault;
use crate::stepping::step_client;
use crate::waiting::{Waiting, waiting_in};
use sal_client::{ClientRun, Readers, RunFault};
use sal_hub::Hub;
use sal_report::reply_text;
use sal_schema::Schema;
use sal_script::{ScriptStep, StepReply};
use sal_types::{NoMemory, Str};
use std::alloc::Global;
use std::sync::Arc;

/// A client. Its run keeps only the reply that is not written yet, if there is one; the run is none once the client is lost.
pub struct Caller {
    pub(crate) number: u32,
    pub(crate) run: Option<ClientRun>,
    /// The lines of the steps whose replies were written, and how many these are.
    pub(crate) lines: String,
    pub(crate) told: u64,
}

impl Drop for Caller {
    fn drop(self) {
        let Caller {
            number: _,
            run: _,
            lines: _,
            told: _,
        } = self;
    }
}

impl Caller {
    /// A client before its first step.
    pub(crate) fn new(alloc: Global, number: u32) -> Caller
        ensures { IsFresh number result }
    {
        Caller {
            number,
            run: Some(ClientRun::new(alloc, number)),
            lines: String::new(alloc),
            told: 0,
        }
    }

    /// Makes the step, and returns the text of its reply.
    pub(crate) fn step(
        &mut self,
        alloc: Global,
        readers: &Readers,
        schemas: &[Arc<Schema>],
        hub: &mut Hub,
        step: &ScriptStep,
    ) -> Result<Str, StepFault>
        requires caller { IsCaller hub.old self.old.number self.old }
        requires readers { readers.now ≡ versions_of hub.old.world }
        requires schemas { tables_in schemas.now ≡ tables_of hub.old.world }
        requires json { IsTrue (is_json_move (move_of step.now)) }
        ensures steps { Steps (tables_of hub.old.world) hub.old self.old (move_of step.now) hub.new self.new result }
        ensures caller { IsCaller hub.new self.old.number self.new }
        ensures grows { GrowsAtMost self.old.number hub.old hub.new }
    {
        self.tell(alloc, schemas)?;
        self.make(alloc, readers, hub, step)?;
        self.finish(alloc, schemas)
    }

    /// What waits for it at this number of its slots.
    pub(crate) fn waits(&self, hub: &Hub, slot: u8) -> Waiting
        requires { IsCaller hub.now self.now.number self.now }
        ensures { result ≡ waiting_for hub.now self.now slot }
    {
        match &self.run {
            Some(run) => waiting_in(hub, self.number, run, slot),
            None => Waiting::nothing(),
        }
    }

    // Writes the pending reply.
    fn finish(&mut self, alloc: Global, schemas: &[Arc<Schema>]) -> Result<Str, StepFault>
        requires few { length (untold self.old) ≤ 1 }
        requires waits { Waits self.old }
        ensures finished { IsFinished (tables_in schemas.now) self.old result }
        ensures follows { Follows (tables_in schemas.now) self.old self.new }
    {
        match self.tell(alloc, schemas) {
            Ok(Some(text)) => Ok(text),
            Ok(None) => unreachable!(),
            Err(NoMemory) => Err(StepFault::Untold),
        }
    }

    // Makes the step. Its reply is not written yet.
    fn make(
        &mut self,
        alloc: Global,
        readers: &Readers,
        hub: &mut Hub,
        step: &ScriptStep,
    ) -> Result<(), StepFault>
        requires caller { IsCaller hub.old self.old.number self.old }
        requires told { untold self.old ≡ [] }
        requires readers { readers.now ≡ versions_of hub.old.world }
        requires json { IsTrue (is_json_move (move_of step.now)) }
        ensures made { OnOk result (IsMade hub.old self.old (move_of step.now) hub.new self.new) }
        ensures caller { IsCaller hub.new self.old.number self.new }
        ensures grows { GrowsAtMost self.old.number hub.old hub.new }
        ensures fails { IfErr result (Fails hub.old self.old hub.new self.new) }
    {
        let Some(run) = &mut self.run else {
            return Err(StepFault::Lost);
        };
        match step_client(alloc, readers, hub, run, step) {
            Ok(()) => Ok(()),
            Err(RunFault::HistoryFull) => Err(StepFault::Full),
            Err(RunFault::NoMemory) => {
                self.run = None;
                Err(StepFault::NoMemory)
            }
        }
    }

    /// Adds the line of the reply that is not written yet and returns its text, if there is one.
    pub(crate) fn tell(
        &mut self,
        alloc: Global,
        schemas: &[Arc<Schema>],
    ) -> Result<Option<Str>, NoMemory>
        requires few { length (untold self.old) ≤ 1 }
        ensures told { IfOk result (IsTold (tables_in schemas.now) self.old) }
        ensures none { OnOk result (untold self.new ≡ []) }
        ensures follows { Follows (tables_in schemas.now) self.old self.new }
    {
        let Some(text) = self.next_text(alloc, schemas)? else {
            return Ok(None);
        };
        let next = add_line(alloc, &mut self.lines, self.number, self.told, &text)?;
        self.told = next;
        self.forget();
        Ok(Some(text))
    }

    // The text of the reply that is not written yet, if there is one.
    fn next_text(&self, alloc: Global, schemas: &[Arc<Schema>]) -> Result<Option<Str>, NoMemory>
        requires few { length (untold self.now) ≤ 1 }
        ensures { IfOk result (IsTold (tables_in schemas.now) self.now) }
    {
        match self.untold() {
            Some(reply) => {
                let text = reply_text(alloc, schemas, reply)?;
                Ok(Some(text))
            }
            None => Ok(None),
        }
    }

    // The reply that is not written yet, if there is one.
    fn untold(&self) -> Option<&StepReply>
        requires few { length (untold self.now) ≤ 1 }
        ensures { MatchOption result (untold self.now ≡ []) (λ reply. untold self.now ≡ reply.now ∷ []) }
    {
        match &self.run {
            Some(run) => run.replies().first(),
            None => None,
        }
    }

    // Drops the reply that was written.
    fn forget(&mut self)
        ensures { IsForgotten self.old self.new }
    {
        let Some(run) = &mut self.run else {
            return;
        };
        let_go(run);
    }
}

// Drops the replies of a run.
fn let_go(run: &mut ClientRun)
    ensures { IsLetGo run.old run.new }
{
    run.client.replies.clear();
}

// Adds the line of a client's step, and returns the number of the next step.
fn add_line(
    alloc: Global,
    lines: &mut String,
    client: u32,
    step: u64,
    text: &Str,
) -> Result<u64, NoMemory>
    ensures next { IfOk result (λ next. next ≡ step + 1) }
    ensures line { OnOk result (string_bytes lines.new ≡ string_bytes lines.old ++ line_with client step text.now) }
    ensures same { OnErr result (string_bytes lines.new ≡ string_bytes lines.old) }
{
    let Some(next) = step.checked_add(1) else {
        return Err(NoMemory);
    };
    let line = line_of(alloc, client, step, text)?;
    lines.push_str(line.as_str())?;
    Ok(next)
}

// The line of a client's step.
fn line_of(alloc: Global, client: u32, step: u64, text: &Str) -> Result<Str, NoMemory>
    ensures { IfOk result (λ line. line ≡ line_with client step text.now) }
{
    let mut line = String::new(alloc);
    write!(line, "{client} {step} ")?;
    line.push_str(text.as_str())?;
    line.push('\n')?;
    Ok(Str::from_string(line))
}
