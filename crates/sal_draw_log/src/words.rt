//! A call and its reply as text.
ghost use Rattle.std.specs.Prelude.{◌≡◌, ◌++◌, IfOk, OnOk, decimal, string_bytes};
ghost use Rattle.sal_shapes.specs.Labels.{label_text};
ghost use Rattle.sal_retell.specs.Told as retold;
ghost use Rattle.sal_draw_log.specs.Drawn as drawn;
ghost use Rattle.sal_draw_log.specs.Words as spec;

use sal_history::{Call, Reply};
use sal_rows::{CallFault, Mode, Outcome};
use sal_shapes::label_of;
use sal_types::{NoMemory, Seq, Store, Str, push_word};
use std::alloc::Global;

/// The texts of a row.
#[derive(Drop)]
pub(crate) struct Texts {
    pub label: Seq<u8>,
    pub title: Str,
}

// A word and a number.
fn push_one(text: &mut String, word: &str, n: u64) -> Result<(), NoMemory>
    ensures { OnOk result (string_bytes text.new ≡ string_bytes text.old ++ spec.one word.now n) }
{
    text.push_str(word)?;
    write!(text, "{n}")?;
    Ok(())
}

fn mode_word(mode: Mode) -> &'static str
    ensures { result.now ≡ spec.mode_text mode }
{
    match mode {
        Mode::Ro => " ro",
        Mode::Wo => " wo",
        Mode::Rw => " rw",
        Mode::Checked => " checked",
    }
}

fn store_word(store: Store) -> &'static str
    ensures { result.now ≡ spec.store_text store }
{
    match store {
        Store::Config => " config",
        Store::Oper => " oper",
    }
}

// A word, a number, and a word.
fn push_with(text: &mut String, word: &str, n: u64, last: &str) -> Result<(), NoMemory>
    ensures { OnOk result (string_bytes text.new ≡ string_bytes text.old ++ (spec.one word.now n ++ last.now)) }
{
    push_one(text, word, n)?;
    push_word(text, last)
}

fn push_call(text: &mut String, call: &Call) -> Result<(), NoMemory>
    ensures { OnOk result (string_bytes text.new ≡ string_bytes text.old ++ spec.call_text call.now) }
{
    push_data(text, call)?;
    push_service(text, call)
}

fn push_data(text: &mut String, call: &Call) -> Result<(), NoMemory>
    ensures { OnOk result (string_bytes text.new ≡ string_bytes text.old ++ spec.data_text call.now) }
{
    match call {
        Call::Begin { domain, mode } => {
            push_with(text, "begin ", u64::from(*domain), mode_word(*mode))
        }
        Call::OpenChain { domain } => push_one(text, "open-chain ", u64::from(*domain)),
        Call::ChainBegin { chain, mode } => {
            push_with(text, "chain-begin ", *chain, mode_word(*mode))
        }
        Call::CloseChain { chain } => push_one(text, "close-chain ", *chain),
        Call::Submit { place, .. } => push_one(text, "submit ", *place),
        Call::Cancel { place } => push_one(text, "cancel ", *place),
        Call::Settle { receipt } => push_one(text, "settle ", *receipt),
        Call::Pump => push_word(text, "pump"),
        Call::Listen { domain, store, .. } => {
            push_with(text, "listen ", u64::from(*domain), store_word(*store))
        }
        Call::Take { id } => push_one(text, "take ", *id),
        Call::Unlisten { id } => push_one(text, "unlisten ", *id),
        Call::Mount { device, .. } => push_one(text, "mount ", u64::from(*device)),
        Call::Unmount { domain } => push_one(text, "unmount ", u64::from(*domain)),
        Call::MountAt { .. } => push_word(text, "mount-at"),
        Call::Mark { mark } => push_one(text, "mark ", u64::from(*mark)),
        Call::After { mark } => push_one(text, "after ", u64::from(*mark)),
        Call::Upgrade { version } => push_one(text, "upgrade ", u64::from(*version)),
        _ => Ok(()),
    }
}

fn push_service(text: &mut String, call: &Call) -> Result<(), NoMemory>
    ensures { OnOk result (string_bytes text.new ≡ string_bytes text.old ++ spec.service_text call.now) }
{
    match call {
        Call::Provide { rpc, .. } => push_one(text, "provide ", u64::from(*rpc)),
        Call::Withdraw { rpc, .. } => push_one(text, "withdraw ", u64::from(*rpc)),
        Call::Invoke { rpc, .. } => push_one(text, "invoke ", u64::from(*rpc)),
        Call::NextCall => push_word(text, "next-call"),
        Call::Answer { id, .. } => push_one(text, "answer ", *id),
        Call::Collect { id } => push_one(text, "collect ", *id),
        Call::Subscribe { note } => push_one(text, "subscribe ", u64::from(*note)),
        Call::Offer { note, .. } => push_one(text, "offer ", u64::from(*note)),
        Call::TakeNotes => push_word(text, "take-notes"),
        _ => Ok(()),
    }
}

fn push_outcome(text: &mut String, outcome: &Outcome) -> Result<(), NoMemory>
    ensures { OnOk result (string_bytes text.new ≡ string_bytes text.old ++ spec.outcome_text outcome.now) }
{
    match outcome {
        Outcome::Done { commit } => push_one(text, "commit ", *commit),
        Outcome::Conflict { commit, .. } => push_one(text, "conflict with commit ", *commit),
        Outcome::Invalid { .. } => push_word(text, "breaks a rule"),
        Outcome::ChainFailed { receipt } => push_one(text, "chain failed by receipt ", *receipt),
        Outcome::Unmounted { domain } => { push_one(text, "unmounted domain ", u64::from(*domain)) }
    }
}

// A word and the number of a domain.
fn push_domain(text: &mut String, word: &str, id: u32) -> Result<(), NoMemory>
    ensures { OnOk result (string_bytes text.new ≡ string_bytes text.old ++ spec.one word.now id) }
{
    push_one(text, word, u64::from(id))
}

fn push_fault(text: &mut String, fault: &CallFault) -> Result<(), NoMemory>
    ensures { OnOk result (string_bytes text.new ≡ string_bytes text.old ++ spec.fault_text fault.now) }
{
    match fault {
        CallFault::PipelineFull => push_word(text, "pipeline full"),
        CallFault::TxSpent => push_word(text, "transaction spent"),
        CallFault::PreviousOpen => push_word(text, "previous transaction open"),
        CallFault::ChainClosed => push_word(text, "chain closed"),
        CallFault::ChainFailed { receipt } => {
            push_one(text, "chain failed by receipt ", *receipt)
        }
        CallFault::NoDomain { id } => push_domain(text, "no live domain ", *id),
        CallFault::DeviceUsed { id } => push_domain(text, "mounted before: domain ", *id),
        CallFault::MountTaken { id } => push_domain(text, "mounted there: domain ", *id),
        _ => push_word(text, "refused"),
    }
}

fn push_base(text: &mut String, commit: u64, on: Option<u64>) -> Result<(), NoMemory>
    ensures { OnOk result (string_bytes text.new ≡ string_bytes text.old ++ spec.base_text commit on) }
{
    match on {
        None => push_one(text, "on commit ", commit),
        Some(receipt) => push_one(text, "on receipt ", receipt),
    }
}

fn push_mount(text: &mut String, mount: Option<u32>) -> Result<(), NoMemory>
    ensures { OnOk result (string_bytes text.new ≡ string_bytes text.old ++ spec.mount_text mount) }
{
    match mount {
        None => push_word(text, "nothing"),
        Some(domain) => push_one(text, "domain ", u64::from(domain)),
    }
}

// The first pending receipt, and its outcome.
fn push_decided(text: &mut String, receipt: u64, outcome: &Outcome) -> Result<(), NoMemory>
    ensures { OnOk result (string_bytes text.new ≡ string_bytes text.old ++ spec.decided_text receipt outcome.now) }
{
    push_with(text, "receipt ", receipt, ", ")?;
    push_outcome(text, outcome)
}

fn push_answer(text: &mut String, reply: &Reply) -> Result<(), NoMemory>
    ensures { OnOk result (string_bytes text.new ≡ string_bytes text.old ++ spec.answer_text reply.now) }
{
    match reply {
        Reply::Begun { commit, on } => push_base(text, *commit, *on),
        Reply::Chain { id } => push_one(text, "chain ", *id),
        Reply::Accepted => push_word(text, "ok"),
        Reply::Receipt { number } => push_one(text, "receipt ", *number),
        Reply::Settled { outcome, .. } => push_outcome(text, outcome),
        Reply::Decided {
            receipt,
            outcome,
            ..
        } => push_decided(text, *receipt, outcome),
        Reply::MountAt { mount } => push_mount(text, *mount),
        Reply::Found => push_word(text, "found"),
        Reply::Late => push_word(text, "late"),
        Reply::Refused { fault } => push_fault(text, fault),
        _ => push_word(text, "nothing"),
    }
}

// Whether the reply to the call is shown.
fn is_told(call: &Call) -> bool
    ensures { result ≡ retold.is_told call.now }
{
    match call {
        Call::Listen { .. } | Call::Take { .. } | Call::Unlisten { .. } => false,
        Call::Provide { .. } | Call::Withdraw { .. } | Call::Invoke { .. } => false,
        Call::NextCall | Call::Answer { .. } | Call::Collect { .. } => false,
        Call::Subscribe { .. } | Call::Offer { .. } | Call::TakeNotes => false,
        Call::Upgrade { .. } => false,
        _ => true,
    }
}

fn says_ok(call: &Call, reply: &Reply) -> bool
    ensures { result ≡ drawn.says_ok call.now reply.now }
{
    match reply {
        Reply::Accepted => true,
        _ => !is_told(call),
    }
}

fn title_of(alloc: Global, call: &Call, replied: &str) -> Result<Str, NoMemory>
    ensures { IfOk result (λ title. title ≡ drawn.title_with (retold.is_told call.now) (spec.call_text call.now) replied.now) }
{
    let mut title = String::new(alloc);
    push_call(&mut title, call)?;
    if is_told(call) {
        title.push_str(" => ")?;
        title.push_str(replied)?;
    }
    Ok(Str::from_string(title))
}

/// The texts of a row.
pub(crate) fn texts_of(alloc: Global, call: &Call, reply: &Reply) -> Result<Texts, NoMemory>
    ensures label { IfOk result (λ texts. texts.label ≡ label_text (drawn.says_ok call.now reply.now) (spec.call_text call.now) (spec.answer_text reply.now)) }
    ensures title { IfOk result (λ texts. texts.title ≡ drawn.title_of call.now reply.now) }
{
    let mut step = String::new(alloc);
    push_call(&mut step, call)?;
    let mut replied = String::new(alloc);
    push_answer(&mut replied, reply)?;
    let label = label_of(
        alloc,
        says_ok(call, reply),
        step.as_bytes(),
        replied.as_bytes(),
    )?;
    let title = title_of(alloc, call, replied.as_str())?;
    Ok(Texts { label, title })
}
