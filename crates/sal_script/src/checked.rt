//! Checked reads: the submission of a transaction that reads and writes checks its reads.
ghost use Rattle.std.specs.Prelude.{◌≡◌, map};
ghost use Rattle.sal_script.specs.CheckedReads.{checked_mode, checked_step, step_with, with_reads};
ghost use Rattle.sal_script.specs.Moves.{clients_of, move_of, moves_of};

use crate::script::{Program, ScriptStep};
use sal_rows::Mode;
use sal_types::Seq;
use std::alloc::Global;
use std::mem;

/// The programs in a script whose reads are checked, or not.
pub(crate) fn with_reads(alloc: Global, checked: bool, clients: Vec<Program>) -> Vec<Program>
    ensures { clients_of result.items ≡ with_reads checked (clients_of clients.items) }
{
    let mut programs = clients;
    if checked {
        for program in programs.iter_mut() {
            check_program(alloc, program);
        }
    }
    programs
}

fn check_program(alloc: Global, program: &mut Program)
    ensures { moves_of program.new ≡ map checked_step (moves_of program.old) }
{
    let mut steps = mem::replace(program, Seq::new(alloc)).into_items();
    for step in steps.iter_mut() {
        check_step(step);
    }
    *program = Seq::from_items(steps);
}

/// The step in a script whose reads are checked, or not.
pub(crate) fn step_with(checked: bool, step: ScriptStep) -> ScriptStep
    ensures { move_of result ≡ step_with checked (move_of step) }
{
    let mut step = step;
    if checked {
        check_step(&mut step);
    }
    step
}

fn check_step(step: &mut ScriptStep)
    ensures { move_of step.new ≡ checked_step (move_of step.old) }
{
    match step {
        ScriptStep::Begin { mode, .. } => *mode = checked(*mode),
        ScriptStep::ChainBegin { mode, .. } => *mode = checked(*mode),
        _ => {}
    }
}

fn checked(mode: Mode) -> Mode
    ensures { result ≡ checked_mode mode }
{
    match mode {
        Mode::Rw => Mode::Checked,
        _ => mode,
    }
}
