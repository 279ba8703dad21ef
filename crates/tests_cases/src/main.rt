//! Plays the cases in the folders of `data/`, and prints those that differ from the wanted result.
//!
//! `folders.txt` lists the folders. The file `README.md` of a folder has a line for each of its cases, a dash and the name between
//! backquotes, and what the case shows. A case is some files with its name:
//!
//! | file | content |
//! |---|---|
//! | `NAME.json` | the input; in a folder with a file `modules.yang` without its modules, which are those |
//! | `NAME.yang` | or the modules of an input that has nothing else; each begins on a line of its own with `module` |
//! | `NAME.parts` | or lines `COUNT |TEXT|`: the input has each text COUNT times; `#` is the number of the repetition, from 0 |
//! | `NAME.txt` | the wanted output; absent if it is empty |
//! | `NAME.status` | the wanted exit status and the line on standard error; absent if the status is 0 |
//! | `NAME.words` | the words of the command line, one a line; else those of the folder's file `words`, else `sim` |
//! | `NAME.faults` | lines `read N` and `write N`: calls that fail, counted from 0; `room N`: the sink is full after N bytes |
//! | `NAME.gate` | lines `C S D T`: before its step S client C waits until client D has come to its step T; `looks N`: how often it looks |
//!
//! A file that belongs to no case is listed, and so is a case that lacks its files. If a report or a summary is written, the gate must
//! have been passed once before each step.
//!
//! `each_fault.txt` lists cases that are played again with each read of their input failing in turn, and with a sink that has room for
//! each number of bytes. `checks.txt` names the checks that no script can make (`checks`).
#![tactic(auto)]

mod case;
mod checks;
mod each;
mod folder;
mod gate;
mod input;
mod meetings;
mod play;
mod tally;

use std::sync::Wait;
use std::thread::Threads;
use std::{fs, io};

fn main(rt: HostRuntime) -> io::Result<()> {
    play_cases(&rt, &rt)?;
    play_each_fault(&rt, &rt)?;
    make_checks(&rt, &rt)
}

fn play_cases<R: Threads + Wait + Sync>(rt: &HostRuntime, threads: &R) -> io::Result<()> {
    let folders = fs::read_to_string(rt, "folders.txt")?;
    let tally = folder::play_each(rt, threads, folders.as_str())?;
    folder::say(rt, "in all", tally)
}

fn play_each_fault<R: Threads + Wait + Sync>(rt: &HostRuntime, threads: &R) -> io::Result<()> {
    let names = fs::read_to_string(rt, "each_fault.txt")?;
    each::play_each_fault(rt, threads, names.as_str())
}

fn make_checks<R: Threads + Wait + Sync>(rt: &HostRuntime, threads: &R) -> io::Result<()> {
    let names = fs::read_to_string(rt, "checks.txt")?;
    checks::make_each(rt, threads, names.as_str())
}
