//! The text of a call.
ghost use Rattle.std.specs.Prelude.{◌≡◌, ◌⊎◌, ◌++◌, [], IfOk};
ghost use Rattle.sal_prepare.specs.Statuses.{line_of};
ghost use Rattle.sal_prepare.specs.declared.status.Status.TheVariants as Status;
ghost use Rattle.sal_session.specs.Texts.{IsLine, feed_line, told};

use sal_follow::FollowFault;
use sal_prepare::status::Status;
use sal_types::{Bytes, NoMemory, Str};
use std::alloc::Global;

/// The text of a call: words, or frames.
#[derive(Drop)]
pub enum Text {
    Words { text: Str },
    Frames { bytes: Bytes },
}

impl Text {
    /// The bytes.
    pub(crate) fn items(&self) -> &[u8]
        ensures { result.now ≡ told self.now }
    {
        match self {
            Text::Words { text } => text.items(),
            Text::Frames { bytes } => bytes.items(),
        }
    }
}

/// The empty text. It takes no memory.
pub(crate) fn nothing(alloc: Global) -> Text
    ensures { told result ≡ [] }
{
    Text::Words {
        text: Str::from_string(String::new(alloc)),
    }
}

/// The line of a status; the empty text if memory runs out.
pub(crate) fn line_of(alloc: Global, status: &Status) -> Text
    ensures { IsLine (line_of status.now) (told result) }
{
    match status.line(alloc) {
        Ok(text) => Text::Words { text },
        Err(NoMemory) => nothing(alloc),
    }
}

/// The line of a commit whose frame is too long.
pub(crate) fn export_line(alloc: Global, commit: u64) -> Text
    ensures { IsLine (line_of (Status.BadExport commit)) (told result) }
{
    line_of(alloc, &Status::BadExport { commit })
}

/// The line of a stream's fault.
pub(crate) fn stream_line(alloc: Global, fault: FollowFault) -> Text
    ensures { IsLine (feed_line fault) (told result) }
{
    match fault_line(alloc, fault) {
        Ok(text) => Text::Words { text },
        Err(NoMemory) => nothing(alloc),
    }
}

fn fault_line(alloc: Global, fault: FollowFault) -> Result<Str, NoMemory>
    ensures { IfOk result (λ text. text ≡ feed_line fault) }
{
    let mut text = String::new(alloc);
    match fault {
        FollowFault::BadFrame { at } => write!(text, "bad stream bad-frame {at}\n")?,
        FollowFault::Gap { want, got } => write!(text, "bad stream gap {want} {got}\n")?,
        FollowFault::NoMemory => {}
    }
    Ok(Str::from_string(text))
}
