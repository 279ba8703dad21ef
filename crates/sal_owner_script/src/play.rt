//! The steps, played over a book of owners on one thread.
ghost use Rattle.std.specs.Prelude.{◌≡◌, ◌<◌, ◌≤◌, ◌+◌, [], ◌++◌, IfOk, OnOk, length, string_bytes};
ghost use Rattle.sal_script.specs.Reading.{Reads};
ghost use Rattle.sal_owner.specs.declared.call.OwnerCall.TheVariants.{Changes as TakesChanges, Register, State, Unregister, Watch};
ghost use Rattle.sal_owner.specs.Ownership.{make, made_of, reply};
ghost use Rattle.sal_owner_script.specs.Playing.{IsRefusal, PlaysOr};
ghost use Rattle.sal_owner_script.specs.Replies as spec;

use crate::read::read_steps;
use crate::replies::push_line;
use crate::step::OwnerStep;
use sal_owner::{Entity, OwnerBook, OwnerCall, OwnerFault, OwnerReply};
use sal_script::ScriptFault;
use sal_types::{NoMemory, Str};
use std::alloc::Global;

// The reply to a step, unless memory ran out.
type Played = Result<OwnerReply, NoMemory>;

/// The text of the replies to the steps that the bytes denote, or the first bad input.
pub fn owner_text(alloc: Global, bytes: &[u8]) -> Result<Str, ScriptFault>
    ensures { Reads (λ text. text) result (spec.owner_text bytes.now) }
{
    let steps = read_steps(alloc, bytes)?;
    match steps_text(alloc, steps) {
        Ok(text) => Ok(text),
        Err(NoMemory) => Err(ScriptFault::NoMemory),
    }
}

/// The text of the replies to the steps, made in their order.
pub fn steps_text(alloc: Global, steps: Vec<OwnerStep>) -> Result<Str, NoMemory>
    requires { length steps.items ≤ 60000 }
    ensures { IfOk result (λ text. text ≡ spec.steps_text steps.items) }
{
    let mut book = OwnerBook::new(alloc);
    let mut text = String::new(alloc);
    play_each(alloc, &mut book, &mut text, steps)?;
    Ok(Str::from_string(text))
}

fn play_each(
    alloc: Global,
    book: &mut OwnerBook,
    text: &mut String,
    steps: Vec<OwnerStep>,
) -> Result<(), NoMemory>
    requires few { length steps.items ≤ 60000 }
    requires book { book.old ≡ [] }
    requires text { string_bytes text.old ≡ [] }
    ensures { OnOk result (string_bytes text.new ≡ spec.steps_text steps.items) }
{
    for step in steps {
        play_step(alloc, book, text, step)?;
    }
    Ok(())
}

// Makes the call of the step, and writes the line of its reply.
fn play_step(
    alloc: Global,
    book: &mut OwnerBook,
    text: &mut String,
    step: OwnerStep,
) -> Result<(), NoMemory>
    requires { length book.old < 1000000 }
    ensures made { OnOk result (made_of book.new ≡ make (made_of book.old) (spec.entry_of step)) }
    ensures longer { OnOk result (length book.new ≡ length book.old + 1) }
    ensures line { OnOk result (string_bytes text.new ≡ string_bytes text.old ++ spec.reply_line (length book.old) (reply book.old step.client step.call)) }
{
    let number = book.log().len();
    let reply = reply_to(alloc, book, step)?;
    push_line(alloc, text, number, &reply)
}

// Makes the call of the step.
fn reply_to(alloc: Global, book: &mut OwnerBook, step: OwnerStep) -> Played
    requires { length book.old < 1000000 }
    ensures { PlaysOr book.old book.new step result }
{
    let OwnerStep { client, call } = step;
    match call {
        OwnerCall::Register(entity) => register(alloc, book, client, entity),
        OwnerCall::Unregister(entity) => unregister(alloc, book, client, entity),
        OwnerCall::State(entity) => state(alloc, book, client, &entity),
        OwnerCall::Watch(kind) => watch(alloc, book, client, kind),
        OwnerCall::Changes => changes(alloc, book, client),
    }
}

fn register(alloc: Global, book: &mut OwnerBook, client: u32, entity: Entity) -> Played
    requires { length book.old < 1000000 }
    ensures { PlaysOr book.old book.new (record { client = client; call = Register entity }) result }
{
    match book.register(alloc, client, entity) {
        Ok(()) => Ok(OwnerReply::Accepted),
        Err(fault) => refused(fault),
    }
}

fn unregister(alloc: Global, book: &mut OwnerBook, client: u32, entity: Entity) -> Played
    requires { length book.old < 1000000 }
    ensures { PlaysOr book.old book.new (record { client = client; call = Unregister entity }) result }
{
    match book.unregister(alloc, client, entity) {
        Ok(()) => Ok(OwnerReply::Accepted),
        Err(fault) => refused(fault),
    }
}

fn state(alloc: Global, book: &mut OwnerBook, client: u32, entity: &Entity) -> Played
    requires { length book.old < 1000000 }
    ensures { PlaysOr book.old book.new (record { client = client; call = State entity.now }) result }
{
    match book.state(alloc, client, entity) {
        Ok(state) => Ok(OwnerReply::State(state)),
        Err(fault) => refused(fault),
    }
}

fn watch(alloc: Global, book: &mut OwnerBook, client: u32, kind: Str) -> Played
    requires { length book.old < 1000000 }
    ensures { PlaysOr book.old book.new (record { client = client; call = Watch kind }) result }
{
    match book.watch(alloc, client, kind) {
        Ok(list) => Ok(OwnerReply::Watching(list)),
        Err(fault) => refused(fault),
    }
}

fn changes(alloc: Global, book: &mut OwnerBook, client: u32) -> Played
    requires { length book.old < 1000000 }
    ensures { PlaysOr book.old book.new (record { client = client; call = TakesChanges }) result }
{
    match book.changes(alloc, client) {
        Ok(list) => Ok(OwnerReply::Changes(list)),
        Err(fault) => refused(fault),
    }
}

// A refusal is a reply; `NoMemory` is not.
fn refused(fault: OwnerFault) -> Played
    ensures { IfOk result (IsRefusal fault) }
{
    match fault {
        OwnerFault::NoMemory => Err(NoMemory),
        _ => Ok(OwnerReply::Refused(fault)),
    }
}
