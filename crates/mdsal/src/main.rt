//! The data broker's command: `mdsal run` runs a script's clients on threads over one broker and writes the replies of each and
//! the committed trees; `mdsal sim` plays them in the script's order; `mdsal load` runs four clients of its own; `mdsal schema`
//! checks a script's modules, and `mdsal lint` says what of them is refused or ignored, and where; `mdsal owner` plays steps of clients
//! that agree on owners of entities; `mdsal export` writes commits as frames, `mdsal follow` rebuilds trees from them, and `mdsal feed`
//! passes notifications from thread to thread; `mdsal draw` makes a picture of a script's clients, and `mdsal audit` judges a report.
//!
//! It passes the words of its command line, standard input and standard output to the top call of `sal_command`, and ends
//! with the returned status.
#![tactic(auto)]

use sal_command::top::mdsal;
use sal_io::{OpenGate, StdSink, StdSource};
use sal_prepare::status::Status;
use sal_types::{NoMemory, Str};
use std::env;
use std::io::ErrorKind;
use std::process::ExitCode;
use std::sync::Wait;
use std::thread::Threads;

// The words after the program's name. Arguments that are not text are one empty word, which is no form.
fn words_of(rt: &HostRuntime) -> Result<Vec<Str>, NoMemory> {
    let mut words = Vec::new(rt.alloc());
    match env::args(rt) {
        Ok(args) => {
            for word in args.skip(1) {
                words.push(Str::from_string(word))?;
            }
        }
        Err(error) => match error.kind() {
            ErrorKind::OutOfMemory => return Err(NoMemory),
            _ => words.push(Str::new(rt.alloc(), "")?)?,
        },
    }
    Ok(words)
}

// The status of the top call. The runtime is passed twice: for the streams, and for the threads of a run or a load.
fn answer<R: Threads + Wait + Sync>(rt: &HostRuntime, threads: &R) -> Status {
    match words_of(rt) {
        Ok(words) => {
            let mut source = StdSource::new(rt.stdin());
            let mut sink = StdSink::new(rt.stdout());
            mdsal(
                threads,
                rt.alloc(),
                &words,
                &mut source,
                &mut sink,
                &OpenGate,
            )
        }
        Err(NoMemory) => Status::NoMemory,
    }
}

// The status with its line on standard error.
fn end(rt: &HostRuntime, status: &Status) -> ExitCode {
    if let Ok(line) = status.line(rt.alloc()) {
        let _ = rt.eprint(line.as_str());
    }
    ExitCode::from(status.number())
}

fn main(rt: HostRuntime) -> ExitCode {
    let status = answer(&rt, &rt);
    end(&rt, &status)
}
