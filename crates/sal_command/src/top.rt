//! The top call: the whole command.
ghost use Rattle.std.specs.Prelude.{◌≡◌, ◌↔◌, ◌≤◌, None, IfErr};
ghost use Rattle.sal_io.specs.Causes.{Rose};
ghost use Rattle.sal_lint_script.specs.Linted.{IsEnd};
ghost use Rattle.sal_command.specs.Words.{form_of};
ghost use Rattle.sal_command.specs.Top as spec;

use crate::loaded::load_text;
use crate::played::run_text;
use crate::texts::made_by;
use crate::words::{Form, TextForm, form_of};
use sal_feed_script::feed_text;
use sal_io::{Gate, ReadFail, Sink, Source, read_all, write_all};
use sal_lint_script::Linted;
use sal_prepare::status::Status;
use sal_types::{NoMemory, Str};
use std::alloc::Global;
use std::sync::Wait;
use std::thread::Threads;

/// The largest number of bytes of a script.
pub const LIMIT: usize = 16777216;

/// The help text.
pub const HELP: &str = "mdsal: an SDN controller's data broker, run from a script\n\
\n\
usage: mdsal run < SCRIPT\n\
       mdsal sim < SCRIPT\n\
       mdsal load N S\n\
       mdsal schema < SCRIPT\n\
       mdsal lint < SCRIPT\n\
       mdsal owner < STEPS\n\
       mdsal export < SCRIPT\n\
       mdsal follow < SCRIPT, A ZERO BYTE, FRAMES\n\
       mdsal feed N C\n\
       mdsal draw [FROM TO] < SCRIPT, or A SCRIPT, A ZERO BYTE, A REPORT\n\
       mdsal audit < SCRIPT, A ZERO BYTE, A REPORT\n\
       mdsal --help | --version\n\
\n\
run reads a JSON script from standard input, runs its clients at the same time, each on a thread of its own, and\n\
writes the report to standard output: the order of their shared calls, a line for each step, and the trees at the\n\
end. docs/FORMATS.md has the format of a script, and examples/ scripts with their reports.\n\
\n\
sim plays the same on one thread, in the script's order, and writes the report.\n\
\n\
load runs four clients at the same time, each on a thread of its own, and reads no input: in each of N rounds each puts\n\
an entry into one list, in a transaction of its own. The entries are numbered from S + 1. It writes how many calls, commits\n\
and rows there are at the end, and the sum of the numbers. N is 1 to 10000, and S 0 to 65536.\n\
\n\
schema reads a script too, and writes the table of the schema that its modules build.\n\
\n\
lint reads a script too, and writes a line for each statement of its modules that is refused, or read and ignored. If run cannot play\n\
the script, it writes the line of the status too, with the line and the column of the fault, and ends with that status.\n\
\n\
owner reads a JSON array of steps, in which clients register for entities such as switches and ask who owns them, and writes\n\
a line for each step with its reply. The first registered candidate of an entity owns it.\n\
\n\
export plays a script as sim does, and writes the commits of the controller's own domain as frames, for a follower.\n\
\n\
follow reads a script for its modules and upgrades, then a zero byte, then frames. It writes the domain's trees after the last\n\
commit, as the last line of a report.\n\
\n\
feed sends N notifications, numbered from 0, from one thread to another through a feed for at most C, and reads no input.\n\
It writes how many arrived, and the sum of their numbers. N is 1 to 100000, and C 1 to 4096.\n\
\n\
draw plays a script as sim does, or in the order on the first line of the report, and writes a picture of what its clients did\n\
to each other, as SVG: of the whole log, or of its entries from place FROM to place TO. FROM and TO are 0 to 1000000.\n\
\n\
audit reads a script, then a zero byte, then a report. It writes yes if that is the report of the script for the order on its first\n\
line, else no and the number of the first line that differs, from 0.\n\
\n\
exit status, each but 0 with its line on standard error:\n\
  0  done: the whole text was written\n\
  2  bad words: the command line is none of the forms above\n\
  3  read fault\n\
  4  write fault: a prefix of the text may have been written\n\
  5  too long: the input has more than 16777216 bytes\n\
  6  bad script at PLACE: the first bad place, as clients/0/2\n\
  7  bad schema DEVICE FAULT: the modules build no schema, as bad schema 0 module 0 unclosed 9\n\
  8  bad opening DEVICE STORE FAULT: an opening tree is no data of the schema, or it breaks a rule of it\n\
  9  bad order at INDEX, sim, export and draw only: the order names a client without a shared call left, or ends too early\n\
 10  no memory\n\
 11  no second part, follow and audit only: the input has no zero byte\n\
 12  bad stream FAULT, follow only: bad-frame BYTE, gap WANTED FOUND or unfinished BYTE\n\
 13  bad export COMMIT, export only: the text of a frame has more than 16777216 bytes\n";

/// The name and version.
pub const VERSION: &str = "mdsal 0.1.0\n";

/// Runs the command: the words of its command line, its input, its output, and the gate that a client passes before
/// each of its steps. With `run`, `load` and `feed` it starts threads and waits for them. The law `plays_follow_their_order` of
/// `sal_script` says what the report of a played script has of its order; `first_lines_tell_one_order` says that its first line states
/// exactly one order. It does not free the play, since the process ends then: in a caller that continues, that memory stays
/// allocated.
pub fn mdsal<R: Threads + Wait + Sync, S: Source, K: Sink, G: Gate>(
    rt: &R,
    alloc: Global,
    words: &[Str],
    source: &mut S,
    sink: &mut K,
    gate: &G,
) -> Status
    ensures words { (result ≡ Status.BadWords) ↔ (form_of words.now ≡ None) }
    ensures read_fault { result ≡ Status.ReadFault → Rose (S.faults source.old) (S.faults source.new) }
    ensures write_fault { result ≡ Status.WriteFault → Rose (K.faults sink.old) (K.faults sink.new) }
    ensures answer { spec.Answers (form_of words.now) (S.left source.old) (S.left source.new) (K.taken sink.old) (K.taken sink.new) result }
    ensures complete { spec.IsValid (form_of words.now) (S.left source.old) → spec.IsDoneUnlessStopped result }
{
    match form_of(words) {
        None => Status::BadWords,
        Some(Form::Run) => run_clients(rt, alloc, source, sink, gate),
        Some(Form::Lint) => lint(alloc, source, sink),
        Some(Form::Text(form)) => make(alloc, form, source, sink, gate),
        Some(Form::Load { rounds, start }) => load(rt, alloc, rounds, start, sink, gate),
        Some(Form::Feed { notes, capacity }) => feed(rt, alloc, notes, capacity, sink),
        Some(Form::Help) => write_bytes(sink, HELP.as_bytes()),
        Some(Form::Version) => write_bytes(sink, VERSION.as_bytes()),
    }
}

// Reads the script, runs its clients, and writes the report.
fn run_clients<R: Threads + Wait + Sync, S: Source, K: Sink, G: Gate>(
    rt: &R,
    alloc: Global,
    source: &mut S,
    sink: &mut K,
    gate: &G,
) -> Status
    ensures read_fault { result ≡ Status.ReadFault → Rose (S.faults source.old) (S.faults source.new) }
    ensures write_fault { result ≡ Status.WriteFault → Rose (K.faults sink.old) (K.faults sink.new) }
    ensures answer { spec.TextAnswers spec.RunsTo (S.left source.old) (S.left source.new) (K.taken sink.old) (K.taken sink.new) result }
{
    match input_of(alloc, source) {
        Ok(bytes) => match run_text(rt, alloc, &bytes, gate) {
            Ok(text) => write_bytes(sink, text.items()),
            Err(status) => status,
        },
        Err(status) => status,
    }
}

// Reads the script, writes what is said of it, and ends with its status.
fn lint<S: Source, K: Sink>(alloc: Global, source: &mut S, sink: &mut K) -> Status
    ensures read_fault { result ≡ Status.ReadFault → Rose (S.faults source.old) (S.faults source.new) }
    ensures write_fault { result ≡ Status.WriteFault → Rose (K.faults sink.old) (K.faults sink.new) }
    ensures answer { spec.LintAnswers (S.left source.old) (S.left source.new) (K.taken sink.old) (K.taken sink.new) result }
{
    match input_of(alloc, source) {
        Ok(bytes) => match sal_lint_script::lint(alloc, &bytes) {
            Ok(linted) => write_linted(sink, linted),
            Err(NoMemory) => Status::NoMemory,
        },
        Err(status) => status,
    }
}

// Writes what is said, and ends with the status of the script.
fn write_linted<K: Sink>(sink: &mut K, linted: Linted) -> Status
    requires { IsEnd linted.status }
    ensures write_fault { result ≡ Status.WriteFault → Rose (K.faults sink.old) (K.faults sink.new) }
    ensures written { spec.IsWrittenWith linted.text linted.status (K.taken sink.old) (K.taken sink.new) result }
{
    match write_all(sink, linted.text.items()) {
        Ok(()) => linted.status,
        Err(_failed) => Status::WriteFault,
    }
}

// Runs the clients of a load, and writes the summary.
fn load<R: Threads + Wait + Sync, K: Sink, G: Gate>(
    rt: &R,
    alloc: Global,
    rounds: u32,
    start: u32,
    sink: &mut K,
    gate: &G,
) -> Status
    requires rounds { rounds ≤ 10000 }
    requires start { start ≤ 65536 }
    ensures write_fault { result ≡ Status.WriteFault → Rose (K.faults sink.old) (K.faults sink.new) }
    ensures answer { spec.OwnAnswers (spec.LoadsTo rounds start) (K.taken sink.old) (K.taken sink.new) result }
{
    match load_text(rt, alloc, rounds, start, gate) {
        Ok(text) => write_bytes(sink, text.items()),
        Err(status) => status,
    }
}

// Reads the input, and writes the result of the form for it.
fn make<S: Source, K: Sink, G: Gate>(
    alloc: Global,
    form: TextForm,
    source: &mut S,
    sink: &mut K,
    gate: &G,
) -> Status
    ensures read_fault { result ≡ Status.ReadFault → Rose (S.faults source.old) (S.faults source.new) }
    ensures write_fault { result ≡ Status.WriteFault → Rose (K.faults sink.old) (K.faults sink.new) }
    ensures answer { spec.TextAnswers (spec.IsMadeBy (spec.made_text form)) (S.left source.old) (S.left source.new) (K.taken sink.old) (K.taken sink.new) result }
{
    match input_of(alloc, source) {
        Ok(bytes) => match made_by(alloc, form, &bytes, gate) {
            Ok(it) => write_bytes(sink, it.items()),
            Err(status) => status,
        },
        Err(status) => status,
    }
}

// Passes notifications through a feed, and writes the result.
fn feed<R: Threads + Wait + Sync, K: Sink>(
    rt: &R,
    alloc: Global,
    notes: u32,
    capacity: u32,
    sink: &mut K,
) -> Status
    requires notes { notes ≤ 100000 }
    requires some { 1 ≤ capacity }
    requires few { capacity ≤ 4096 }
    ensures write_fault { result ≡ Status.WriteFault → Rose (K.faults sink.old) (K.faults sink.new) }
    ensures answer { spec.OwnAnswers (spec.FeedsTo notes capacity) (K.taken sink.old) (K.taken sink.new) result }
{
    match feed_text(rt, alloc, notes, capacity) {
        Ok(text) => write_bytes(sink, text.items()),
        Err(NoMemory) => Status::NoMemory,
    }
}

// All bytes of the input.
fn input_of<S: Source>(alloc: Global, source: &mut S) -> Result<Vec<u8>, Status>
    ensures read_fault { IfErr result (λ status. status ≡ Status.ReadFault → Rose (S.faults source.old) (S.faults source.new)) }
    ensures input { spec.IsInputOr (S.left source.old) (S.left source.new) result }
{
    match read_all(alloc, source, LIMIT) {
        Ok(bytes) => Ok(bytes),
        Err(ReadFail::ReadFault) => Err(Status::ReadFault),
        Err(ReadFail::TooLong) => Err(Status::TooLong),
        Err(ReadFail::NoMemory) => Err(Status::NoMemory),
    }
}

// Writes the text.
fn write_bytes<K: Sink>(sink: &mut K, text: &[u8]) -> Status
    ensures write_fault { result ≡ Status.WriteFault → Rose (K.faults sink.old) (K.faults sink.new) }
    ensures written { spec.Written text.now (K.taken sink.old) (K.taken sink.new) result }
{
    match write_all(sink, text) {
        Ok(()) => Status::Done,
        Err(_) => Status::WriteFault,
    }
}
