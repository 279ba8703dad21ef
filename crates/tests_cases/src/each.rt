//! Plays a case with each read of its input failing in turn, and with room for each number of bytes of its output.
use crate::case::Case;
use crate::gate::CountingGate;
use crate::input;
use crate::meetings::Meetings;
use crate::play::{sink_with, words_of};
use crate::tally::Tally;
use sal_command::top::mdsal;
use sal_io::{MemSink, MemSource};
use sal_types::Str;
use std::io;
use std::sync::Wait;
use std::thread::Threads;

// The largest number of reads that fail in turn: the input has ended before.
const MOST_READS: u64 = 1000;

// A case that is played many times: its words, its input and the output that is wanted without a fault.
#[derive(Drop)]
struct Trial<'a, R> {
    threads: &'a R,
    case: Case<'a>,
    words: &'a [Str],
    input: &'a str,
    wanted: &'a str,
}

// The end of a play: the number of its status, how much was written, and whether that is a prefix of the wanted output.
type End = (u8, usize, bool);

/// Plays each case that the text names, as FOLDER/NAME, one a line, and prints how many plays there were, and how many differ.
pub fn play_each_fault<R: Threads + Wait + Sync>(
    rt: &HostRuntime,
    threads: &R,
    names: &str,
) -> io::Result<()> {
    for line in names.lines() {
        if let Some((folder, name)) = line.split_once('/') {
            let tally = faults_of(threads, Case { rt, folder, name })?;
            say(rt, line, tally)?;
        }
    }
    Ok(())
}

fn say(rt: &HostRuntime, name: &str, tally: Tally) -> io::Result<()> {
    let played = tally.played;
    let differing = tally.differing;
    println!(rt; "each fault of {name}: {played} plays, {differing} differ")
}

fn faults_of<R: Threads + Wait + Sync>(threads: &R, case: Case<'_>) -> io::Result<Tally> {
    let words = words_of(case)?;
    faults_with(threads, case, &words)
}

fn faults_with<R: Threads + Wait + Sync>(
    threads: &R,
    case: Case<'_>,
    words: &[Str],
) -> io::Result<Tally> {
    let input = input::of_case(case)?;
    faults_over(threads, case, words, input.as_str())
}

fn faults_over<R: Threads + Wait + Sync>(
    threads: &R,
    case: Case<'_>,
    words: &[Str],
    input: &str,
) -> io::Result<Tally> {
    let wanted = case.text("txt")?;
    let trial = Trial {
        threads,
        case,
        words,
        input,
        wanted: wanted.as_str(),
    };
    let reads = at_each_read(&trial)?;
    let rooms = at_each_room(&trial)?;
    Ok(reads.and(rooms))
}

// Each read fails in turn, also the last one that is made; then one fails that is not made.
fn at_each_read<R: Threads + Wait + Sync>(trial: &Trial<'_, R>) -> io::Result<Tally> {
    let mut tally = Tally::new();
    for read in 0..MOST_READS {
        let end = at_read(trial, read)?;
        if end.0 == 0 {
            return Ok(tally.with(end != (0, trial.wanted.len(), true)));
        }
        tally = tally.with(end != (3, 0, true));
    }
    Ok(tally.with(true))
}

// There is room for no byte, for one, and so on up to the whole output.
fn at_each_room<R: Threads + Wait + Sync>(trial: &Trial<'_, R>) -> io::Result<Tally> {
    let mut tally = Tally::new();
    for room in 0..trial.wanted.len() {
        let end = with_room(trial, room)?;
        tally = tally.with(end != (4, room, true));
    }
    let whole = trial.wanted.len();
    let end = with_room(trial, whole)?;
    Ok(tally.with(end != (0, whole, true)))
}

fn at_read<R: Threads + Wait + Sync>(trial: &Trial<'_, R>, read: u64) -> io::Result<End> {
    let fails = vec![in trial.case.alloc(); read]?;
    let mut source = source_of(trial, fails)?;
    ended(trial, &mut source, trial.wanted.len())
}

fn with_room<R: Threads + Wait + Sync>(trial: &Trial<'_, R>, room: usize) -> io::Result<End> {
    let mut source = source_of(trial, Vec::new(trial.case.alloc()))?;
    ended(trial, &mut source, room)
}

fn source_of<R>(trial: &Trial<'_, R>, fails: Vec<u64>) -> io::Result<MemSource> {
    let input = String::from_str(trial.case.alloc(), trial.input)?;
    Ok(MemSource::new(input.into_bytes(), fails))
}

fn ended<R: Threads + Wait + Sync>(
    trial: &Trial<'_, R>,
    source: &mut MemSource,
    room: usize,
) -> io::Result<End> {
    let mut sink = sink_with(trial.case.alloc(), room, Vec::new(trial.case.alloc()))?;
    let number = status_of(trial, source, &mut sink);
    let written = sink.bytes();
    Ok((
        number,
        written.len(),
        trial.wanted.as_bytes().starts_with(written),
    ))
}

fn status_of<R: Threads + Wait + Sync>(
    trial: &Trial<'_, R>,
    source: &mut MemSource,
    sink: &mut MemSink,
) -> u8 {
    let alloc = trial.case.alloc();
    let gate = CountingGate::new(Meetings::none(alloc));
    mdsal(trial.threads, alloc, trial.words, source, sink, &gate).number()
}
