//! Plays a case by the top call, and compares the result with the wanted one.
use crate::case::Case;
use crate::gate::{self, CountingGate, Steps};
use crate::input;
use crate::meetings::Meetings;
use sal_command::top::mdsal;
use sal_io::{MemSink, MemSource};
use sal_prepare::status::Status;
use sal_types::{NoMemory, Str};
use std::alloc::Global;
use std::io;
use std::io::{Error, ErrorKind};
use std::sync::Wait;
use std::thread::Threads;

// The number of bytes that the sink of a case takes if no room is given.
const ROOM: u64 = 1048576;

// The default end of a case.
const DONE: &str = "0 ";

/// How the command ended, as in a file `NAME.status`, before which steps the gate was passed, how many clients waited there in vain, and the output.
#[derive(Drop)]
struct Outcome {
    ended: String,
    passes: Steps,
    missed: u64,
    sink: MemSink,
}

/// How the case differs from its wanted result; empty if it does not. Clients that run at the same time have their threads of
/// the runtime.
pub fn difference<R: Threads + Wait + Sync>(threads: &R, case: Case<'_>) -> io::Result<String> {
    match compared(threads, case) {
        Ok(difference) => Ok(difference),
        Err(error) => Ok(format!(in case.alloc(); "it cannot be played: {error}")?),
    }
}

fn compared<R: Threads + Wait + Sync>(threads: &R, case: Case<'_>) -> io::Result<String> {
    let played = played(threads, case)?;
    let difference = status_difference(case, played.ended.as_str())?;
    if difference.is_empty() {
        output_difference(case, &played)
    } else {
        Ok(difference)
    }
}

fn output_difference(case: Case<'_>, played: &Outcome) -> io::Result<String> {
    let difference = text_difference(case, played.sink.bytes())?;
    if difference.is_empty() && played.ended.as_str() == DONE {
        passes_difference(case, played)
    } else {
        Ok(difference)
    }
}

fn played<R: Threads + Wait + Sync>(threads: &R, case: Case<'_>) -> io::Result<Outcome> {
    let words = words_of(case)?;
    played_with(threads, case, &words)
}

fn played_with<R: Threads + Wait + Sync>(
    threads: &R,
    case: Case<'_>,
    words: &[Str],
) -> io::Result<Outcome> {
    let gate = gate_of(case)?;
    played_at(threads, case, words, &gate)
}

fn played_at<R: Threads + Wait + Sync>(
    threads: &R,
    case: Case<'_>,
    words: &[Str],
    gate: &CountingGate,
) -> io::Result<Outcome> {
    let (mut source, mut sink) = ends_of(case)?;
    let status = mdsal(threads, case.alloc(), words, &mut source, &mut sink, gate);
    let ended = ended(case.alloc(), &status)?;
    Ok(Outcome {
        ended,
        passes: gate.passes(),
        missed: gate.missed(),
        sink,
    })
}

// The number of the status and its line.
fn ended(alloc: Global, status: &Status) -> io::Result<String> {
    let number = status.number();
    match status.line(alloc) {
        Ok(line) => numbered(alloc, number, line.as_str()),
        Err(NoMemory) => Err(Error::from(ErrorKind::OutOfMemory)),
    }
}

fn numbered(alloc: Global, number: u8, line: &str) -> io::Result<String> {
    Ok(format!(in alloc; "{number} {line}")?)
}

/// The words of the case.
pub fn words_of(case: Case<'_>) -> io::Result<Vec<Str>> {
    let text = words_text(case)?;
    lines_of(case.alloc(), text.as_str())
}

fn words_text(case: Case<'_>) -> io::Result<String> {
    if case.has("words")? {
        case.text("words")
    } else if case.shares("words")? {
        case.shared_text("words")
    } else {
        Ok(String::from_str(case.alloc(), "sim")?)
    }
}

fn lines_of(alloc: Global, text: &str) -> io::Result<Vec<Str>> {
    let mut lines = Vec::new(alloc);
    push_lines(alloc, &mut lines, text)?;
    Ok(lines)
}

fn push_lines(alloc: Global, lines: &mut Vec<Str>, text: &str) -> io::Result<()> {
    for line in text.lines() {
        lines.push(Str::from_string(String::from_str(alloc, line)?))?;
    }
    Ok(())
}

// The gate, with the meetings of the case.
fn gate_of(case: Case<'_>) -> io::Result<CountingGate> {
    let text = case.text_or("gate", "")?;
    let meetings = Meetings::of_lines(case.alloc(), text.as_str())?;
    Ok(CountingGate::new(meetings))
}

fn ends_of(case: Case<'_>) -> io::Result<(MemSource, MemSink)> {
    let source = source_of(case)?;
    let sink = sink_of(case)?;
    Ok((source, sink))
}

fn source_of(case: Case<'_>) -> io::Result<MemSource> {
    let fails = numbers_of(case, "read")?;
    let input = input::of_case(case)?;
    Ok(MemSource::new(input.into_bytes(), fails))
}

fn sink_of(case: Case<'_>) -> io::Result<MemSink> {
    let room = room_of(case)?;
    let fails = numbers_of(case, "write")?;
    sink_with(case.alloc(), room, fails)
}

/// A sink with this room, whose writes of these numbers fail.
pub fn sink_with(alloc: Global, room: usize, fails: Vec<u64>) -> io::Result<MemSink> {
    match MemSink::new(alloc, room, fails) {
        Ok(sink) => Ok(sink),
        Err(NoMemory) => Err(Error::from(ErrorKind::OutOfMemory)),
    }
}

fn room_of(case: Case<'_>) -> io::Result<usize> {
    let rooms = numbers_of(case, "room")?;
    Ok(rooms.first().copied().unwrap_or(ROOM) as usize)
}

// The numbers after this word in the file of the case's faults.
fn numbers_of(case: Case<'_>, word: &str) -> io::Result<Vec<u64>> {
    let text = case.text_or("faults", "")?;
    numbers_in(case.alloc(), text.as_str(), word)
}

fn numbers_in(alloc: Global, text: &str, word: &str) -> io::Result<Vec<u64>> {
    let mut numbers = Vec::new(alloc);
    for line in text.lines() {
        if let Some((first, number)) = line.split_once(' ') {
            if first == word {
                numbers.push(number.parse::<u64>().unwrap_or(0))?;
            }
        }
    }
    Ok(numbers)
}

fn status_difference(case: Case<'_>, ended: &str) -> io::Result<String> {
    let wanted = case.text_or("status", DONE)?;
    if ended == wanted.as_str() {
        Ok(String::new(case.alloc()))
    } else {
        instead(case.alloc(), "status", ended.trim_end(), wanted.trim_end())
    }
}

fn text_difference(case: Case<'_>, bytes: &[u8]) -> io::Result<String> {
    let wanted = case.text_or("txt", "")?;
    match std::str::from_utf8(bytes) {
        Ok(text) => line_difference(case.alloc(), text, wanted.as_str()),
        Err(_) => Ok(String::from_str(case.alloc(), "the output is no text")?),
    }
}

// Whether the gate was passed once before each step that was answered, and before no other.
fn passes_difference(case: Case<'_>, played: &Outcome) -> io::Result<String> {
    let answered = match std::str::from_utf8(played.sink.bytes()) {
        Ok(text) => gate::answered(text),
        Err(_) => gate::answered(""),
    };
    if played.passes == answered {
        return missed_difference(case, played.missed);
    }
    let passes = played.passes.count;
    let steps = answered.count;
    Ok(format!(in case.alloc(); "{passes} passes of the gate for {steps} steps, or before others")?)
}

// Whether each client met those that it waited for.
fn missed_difference(case: Case<'_>, missed: u64) -> io::Result<String> {
    if missed == 0 {
        Ok(String::new(case.alloc()))
    } else {
        Ok(format!(in case.alloc(); "{missed} clients waited at the gate in vain")?)
    }
}

// The first line that differs.
fn line_difference(alloc: Global, text: &str, wanted: &str) -> io::Result<String> {
    let mut wanted = wanted.split('\n');
    let mut number = 1u32;
    for line in text.split('\n') {
        match wanted.next() {
            Some(other) if other == line => number = number.saturating_add(1),
            Some(other) => return at_line(alloc, number, line, other),
            None => return at_line(alloc, number, line, "nothing"),
        }
    }
    match wanted.next() {
        Some(other) => at_line(alloc, number, "nothing", other),
        None => Ok(String::new(alloc)),
    }
}

fn at_line(alloc: Global, number: u32, line: &str, wanted: &str) -> io::Result<String> {
    Ok(format!(in alloc; "line {number} is {line}, and not {wanted}")?)
}

fn instead(alloc: Global, what: &str, had: &str, wanted: &str) -> io::Result<String> {
    Ok(format!(in alloc; "{what} {had}, and not {wanted}")?)
}
