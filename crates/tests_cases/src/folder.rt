//! The folders of cases, and the cases of a folder.
use crate::case::Case;
use crate::play;
use crate::tally::Tally;
use std::sync::Wait;
use std::thread::Threads;
use std::{fs, io};

/// Plays the cases of each folder that the text lists, one a line.
pub fn play_each<R: Threads + Wait + Sync>(
    rt: &HostRuntime,
    threads: &R,
    folders: &str,
) -> io::Result<Tally> {
    let mut all = Tally::new();
    for folder in folders.lines() {
        let tally = play_listed(rt, threads, folder)?;
        say(rt, folder, tally)?;
        all = all.and(tally);
    }
    Ok(all)
}

/// Prints how many cases there are, and how many differ.
pub fn say(rt: &HostRuntime, name: &str, tally: Tally) -> io::Result<()> {
    let played = tally.played;
    let differing = tally.differing;
    println!(rt; "{name}: {played} cases, {differing} differ")
}

// Plays the cases of a folder that its README lists, and looks for files of others.
fn play_listed<R: Threads + Wait + Sync>(
    rt: &HostRuntime,
    threads: &R,
    folder: &str,
) -> io::Result<Tally> {
    let list = list_of(rt, folder)?;
    let tally = play_lines(rt, threads, folder, list.as_str())?;
    let strays = strays(rt, folder, list.as_str())?;
    Ok(tally.with_strays(strays))
}

fn list_of(rt: &HostRuntime, folder: &str) -> io::Result<String> {
    let path = format!(in rt.alloc(); "{folder}/README.md")?;
    fs::read_to_string(rt, path.as_str())
}

fn play_lines<R: Threads + Wait + Sync>(
    rt: &HostRuntime,
    threads: &R,
    folder: &str,
    list: &str,
) -> io::Result<Tally> {
    let mut tally = Tally::new();
    for line in list.lines() {
        if let Some(name) = name_in(line) {
            let differs = is_differing(threads, Case { rt, folder, name })?;
            tally = tally.with(differs);
        }
    }
    Ok(tally)
}

// The name of the case that the line is about, if it is about one.
fn name_in(line: &str) -> Option<&str> {
    let rest = line.strip_prefix("- `")?;
    let (name, _) = rest.split_once('`')?;
    Some(name)
}

// Whether the case differs from its wanted result; a difference is printed.
fn is_differing<R: Threads + Wait + Sync>(threads: &R, case: Case<'_>) -> io::Result<bool> {
    let difference = play::difference(threads, case)?;
    if difference.is_empty() {
        return Ok(false);
    }
    let rt = case.rt;
    let folder = case.folder;
    let name = case.name;
    println!(rt; "{folder}/{name}: {difference}")?;
    Ok(true)
}

// The number of files of the folder that belong to no case of the list. Each is printed.
fn strays(rt: &HostRuntime, folder: &str, list: &str) -> io::Result<u32> {
    let mut strays = 0u32;
    for entry in fs::read_dir(rt, folder)? {
        let entry = entry?;
        if is_stray(list, entry.file_name()) {
            say_stray(rt, folder, entry.file_name())?;
            strays = strays.saturating_add(1);
        }
    }
    Ok(strays)
}

fn say_stray(rt: &HostRuntime, folder: &str, file: &str) -> io::Result<()> {
    println!(rt; "{folder}/{file}: no case of the folder's README has this file")
}

// Whether a file is neither one of the folder nor one of a case in the list.
fn is_stray(list: &str, file: &str) -> bool {
    if matches!(file, "README.md" | "modules.yang" | "words") {
        return false;
    }
    match file.rsplit_once('.') {
        Some((name, kind)) => !is_kind(kind) || !is_listed(list, name),
        None => true,
    }
}

fn is_kind(kind: &str) -> bool {
    matches!(
        kind,
        "json" | "yang" | "parts" | "txt" | "status" | "words" | "faults" | "gate"
    )
}

fn is_listed(list: &str, name: &str) -> bool {
    for line in list.lines() {
        if name_in(line) == Some(name) {
            return true;
        }
    }
    false
}
