//! How the command ends.
ghost use Rattle.std.specs.Prelude.{◌≡◌, IfOk};
ghost use Rattle.sal_prepare.specs.Statuses.{line_of, number_of};

use sal_types::{NoMemory, Str};
use std::alloc::{AllocFailed, Global};

/// The status of the command. All but `Done` and `WriteFault` write no byte.
#[derive(Debug, Drop, PartialEq, Eq)]
pub enum Status {
    /// The whole text was written.
    Done,
    /// The words are no form of the command.
    BadWords,
    /// A read of the input failed.
    ReadFault,
    /// A write of the output failed; the written part is a prefix of the text.
    WriteFault,
    /// The input has more than 16,777,216 bytes.
    TooLong,
    /// The input is no script; its first fault.
    BadScript { place: Str },
    /// The modules of this device build no schema; the text of their first fault.
    BadSchema { device: u32, text: Str },
    /// An opening tree is not data of the schema, or is refused; the device, the store and the first fault.
    BadOpening { text: Str },
    /// The order fails at this index.
    BadOrder { index: u64 },
    /// Memory ran out.
    NoMemory,
    /// The input has no second part: no zero byte divides it.
    NoPart,
    /// The stream has a fault; the first one with its offset.
    BadStream { text: Str },
    /// The frame of this commit is too long to be exported.
    BadExport { commit: u64 },
}

impl From<NoMemory> for Status {
    ghost use Rattle.sal_prepare.specs.declared.status.Status.TheVariants.{NoMemory};

    ghost from_gives = { λ _ e. e ≡ NoMemory };

    fn from(_refused: NoMemory) -> Status {
        Status::NoMemory
    }
}

impl<T: Drop> From<AllocFailed<T>> for Status {
    ghost use Rattle.sal_prepare.specs.declared.status.Status.TheVariants.{NoMemory};

    ghost from_gives = { λ _ e. e ≡ NoMemory };

    fn from(_refused: AllocFailed<T>) -> Status {
        Status::NoMemory
    }
}

impl Status {
    /// The exit status. It takes no memory.
    pub fn number(&self) -> u8
        ensures { result ≡ number_of self.now }
    {
        match self {
            Status::Done => 0,
            Status::BadWords => 2,
            Status::ReadFault => 3,
            Status::WriteFault => 4,
            Status::TooLong => 5,
            Status::BadScript { .. } => 6,
            Status::BadSchema { .. } => 7,
            Status::BadOpening { .. } => 8,
            Status::BadOrder { .. } => 9,
            Status::NoMemory => 10,
            Status::NoPart => 11,
            Status::BadStream { .. } => 12,
            Status::BadExport { .. } => 13,
        }
    }

    /// The line for standard error; empty for `Done`.
    pub fn line(&self, alloc: Global) -> Result<Str, NoMemory>
        ensures { IfOk result (λ line. line ≡ line_of self.now) }
    {
        match self {
            Status::Done => Str::new(alloc, ""),
            Status::BadWords => Str::new(alloc, "bad words\n"),
            Status::ReadFault => Str::new(alloc, "read fault\n"),
            Status::WriteFault => Str::new(alloc, "write fault\n"),
            Status::TooLong => Str::new(alloc, "too long\n"),
            Status::BadScript { place } => bad_script(alloc, place),
            Status::BadSchema { device, text } => bad_schema(alloc, *device, text),
            Status::BadOpening { text } => bad_opening(alloc, text),
            Status::BadOrder { index } => bad_order(alloc, *index),
            Status::NoMemory => Str::new(alloc, "no memory\n"),
            Status::NoPart => Str::new(alloc, "no second part\n"),
            Status::BadStream { text } => bad_stream(alloc, text),
            Status::BadExport { commit } => bad_export(alloc, *commit),
        }
    }
}

fn bad_script(alloc: Global, place: &Str) -> Result<Str, NoMemory>
    ensures { IfOk result (λ line. line ≡ line_of (Status.BadScript place.now)) }
{
    let mut line = String::new(alloc);
    line.push_str("bad script at ")?;
    line.push_str(place.as_str())?;
    line.push('\n')?;
    Ok(Str::from_string(line))
}

fn bad_schema(alloc: Global, device: u32, text: &Str) -> Result<Str, NoMemory>
    ensures { IfOk result (λ line. line ≡ line_of (Status.BadSchema device text.now)) }
{
    let mut line = String::new(alloc);
    write!(line, "bad schema {device} ")?;
    line.push_str(text.as_str())?;
    line.push('\n')?;
    Ok(Str::from_string(line))
}

fn bad_opening(alloc: Global, text: &Str) -> Result<Str, NoMemory>
    ensures { IfOk result (λ line. line ≡ line_of (Status.BadOpening text.now)) }
{
    let mut line = String::new(alloc);
    line.push_str("bad opening ")?;
    line.push_str(text.as_str())?;
    line.push('\n')?;
    Ok(Str::from_string(line))
}

fn bad_order(alloc: Global, index: u64) -> Result<Str, NoMemory>
    ensures { IfOk result (λ line. line ≡ line_of (Status.BadOrder index)) }
{
    let mut line = String::new(alloc);
    write!(line, "bad order at {index}\n")?;
    Ok(Str::from_string(line))
}

fn bad_stream(alloc: Global, text: &Str) -> Result<Str, NoMemory>
    ensures { IfOk result (λ line. line ≡ line_of (Status.BadStream text.now)) }
{
    let mut line = String::new(alloc);
    line.push_str("bad stream ")?;
    line.push_str(text.as_str())?;
    line.push('\n')?;
    Ok(Str::from_string(line))
}

fn bad_export(alloc: Global, commit: u64) -> Result<Str, NoMemory>
    ensures { IfOk result (λ line. line ≡ line_of (Status.BadExport commit)) }
{
    let mut line = String::new(alloc);
    write!(line, "bad export {commit}\n")?;
    Ok(Str::from_string(line))
}
