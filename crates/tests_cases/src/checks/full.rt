//! A client that finds a full history.
ghost use Rattle.std.specs.Prelude.{◌≡◌, ◌<◌, [], ◌∷◌, IfOk, IsTrue, length};
ghost use Rattle.sal_script.specs.JsonMoves.{have_json_moves};
ghost use Rattle.sal_script.specs.Limits.{within_limits};
ghost use Rattle.sal_script.specs.Moves.{clients_of};
ghost use Rattle.sal_run.specs.Worked.{IsNew};
ghost use Rattle.tests_cases.specs.Ready.{IsFirst, IsOpened};

use super::Unmade;
use sal_broker::{Sal, Seat};
use sal_build::build;
use sal_build::laws::what_is_read_is_readable;
use sal_client::{ClientRun, Readers, RunFault};
use sal_history::{Device, Opening};
use sal_hub::MAX_ENTRIES;
use sal_io::OpenGate;
use sal_rows::{Rows, Rules};
use sal_run::{Hall, SeatedRun, run_clients};
use sal_schema::Schema;
use sal_script::{Program, read_script};
use sal_stmt::read_module;
use std::alloc::Global;
use std::sync::{Arc, Wait};
use std::thread::Threads;

const NO_NODES: &str = "module nothing { namespace 'urn:nothing'; prefix n; }";

// One client, which pumps once.
const PUMP: &str = r#"{"clients":[{"steps":[["pump"]]}]}"#;

fn no_nodes(alloc: Global) -> Result<Arc<Schema>, Unmade> {
    what_is_read_is_readable();
    let module = read_module(alloc, NO_NODES)?;
    let modules = vec![in alloc; module]?;
    let schema = build(alloc, &modules)?;
    Ok(Arc::new(alloc, schema)?)
}

// The readers of the schema of the one domain, in its one version.
fn readers_of(alloc: Global, schema: &Arc<Schema>) -> Result<Readers, Unmade>
    ensures { IfOk result (λ readers. readers ≡ (schema.now.value ∷ []) ∷ []) }
{
    let schemas = vec![in alloc; Arc::try_clone(schema)?]?;
    match Readers::of(alloc, &schemas, &[]) {
        Ok(readers) => Ok(readers),
        Err(_) => Err(Unmade),
    }
}

// A broker over one domain without data.
fn opened(alloc: Global, schema: Arc<Schema>) -> Result<(Sal, Seat), Unmade>
    ensures { IfOk result (λ r. IsOpened ((schema.value ∷ []) ∷ []) r.0 r.1) }
{
    let opening = Opening {
        config: Rows::new(alloc),
        oper: Rows::new(alloc),
    };
    let device = Device {
        schema,
        upgrades: Vec::new(alloc),
        opening,
    };
    let devices = vec![in alloc; device]?;
    Ok(Sal::open(alloc, devices, Rules::One)?)
}

// Sets marks until the history is full.
fn filled<R: Wait>(rt: &R, alloc: Global, sal: &Sal, mut seat: Seat) -> Result<(), Unmade>
    requires { seat.lock ≡ sal.now }
{
    for mark in 0..MAX_ENTRIES as u32 {
        sal.mark(rt, alloc, &mut seat, mark)?;
    }
    Ok(())
}

// A seat for the first client, beside the opening one.
fn first(sal: &Sal, opening: &mut Seat, readers: &Readers) -> Seat
    requires { IsOpened readers.now sal.now opening.old }
    ensures same { opening.new.lock ≡ sal.now }
    ensures first { IsFirst readers.now sal.now result }
{
    sal.split(opening, 0)
}

// The first client at its seat, before its first step.
fn client(alloc: Global, hall: &Hall<'_, OpenGate>, programs: &[Program], seat: Seat) -> SeatedRun
    requires some { 0 < length programs.now }
    requires seat { IsFirst hall.now.readers.now hall.now.sal.now seat }
    ensures { IsNew hall.now.readers.now hall.now.sal.now programs.now result }
{
    let run = ClientRun::new(alloc, 0);
    SeatedRun {
        run,
        seat: Some(seat),
        end: Ok(()),
    }
}

// Whether the one client got the answer that the history is full, at its first step.
fn is_refused(runs: &[SeatedRun]) -> bool {
    match runs {
        [one] => match one.end {
            Err(RunFault::HistoryFull) => one.run.replies().is_empty(),
            _ => false,
        },
        _ => false,
    }
}

// The same, of the client at the seat.
fn is_stopped<R: Threads + Wait + Sync>(
    rt: &R,
    alloc: Global,
    hall: &Hall<'_, OpenGate>,
    programs: &[Program],
    seat: Seat,
) -> Result<bool, Unmade>
    requires limits { IsTrue (within_limits programs.now) }
    requires json { IsTrue (have_json_moves (clients_of programs.now)) }
    requires some { 0 < length programs.now }
    requires seat { IsFirst hall.now.readers.now hall.now.sal.now seat }
{
    let mut runs = vec![in alloc; client(alloc, hall, programs, seat)]?;
    run_clients(rt, alloc, hall, programs, &mut runs);
    Ok(is_refused(&runs))
}

// The same for a client that pumps once.
fn pumps_in_vain<R: Threads + Wait + Sync>(
    rt: &R,
    alloc: Global,
    hall: &Hall<'_, OpenGate>,
    seat: Seat,
) -> Result<bool, Unmade>
    requires { IsFirst hall.now.readers.now hall.now.sal.now seat }
{
    let script = read_script(alloc, PUMP.as_bytes())?;
    let programs = script.clients.items();
    if programs.is_empty() {
        return Err(Unmade);
    }
    is_stopped(rt, alloc, hall, programs, seat)
}

// The same, once the opening seat has filled the history.
fn is_full<R: Threads + Wait + Sync>(
    rt: &R,
    alloc: Global,
    readers: &Readers,
    sal: &Sal,
    mut opening: Seat,
) -> Result<bool, Unmade>
    requires { IsOpened readers.now sal.now opening }
{
    let seat = first(sal, &mut opening, readers);
    filled(rt, alloc, sal, opening)?;
    let hall = Hall {
        sal,
        readers,
        gate: &OpenGate,
    };
    pumps_in_vain(rt, alloc, &hall, seat)
}

fn a_million_marks<R: Threads + Wait + Sync>(rt: &R, alloc: Global) -> Result<bool, Unmade> {
    let schema = no_nodes(alloc)?;
    let readers = readers_of(alloc, &schema)?;
    let (sal, opening) = opened(alloc, schema)?;
    is_full(rt, alloc, &readers, &sal, opening)
}

/// Whether a client stops with that fault at its first step.
pub(crate) fn a_client_behind_a_million_marks_is_stopped<R: Threads + Wait + Sync>(
    rt: &R,
    alloc: Global,
) -> bool {
    matches!(a_million_marks(rt, alloc), Ok(true))
}
