//! The texts of replies. Each function appends to the text.
ghost use Rattle.std.specs.Prelude.{◌≡◌, ◌++◌, OnOk, string_bytes};
ghost use Rattle.sal_owner_script.specs.Replies as spec;

use crate::arrays::push_array;
use sal_owner::{OwnerFault, OwnerReply, OwnershipState};
use sal_types::{NoMemory, push_word};
use std::alloc::Global;

// The line of a reply.
pub(crate) fn push_line(
    alloc: Global,
    text: &mut String,
    number: usize,
    reply: &OwnerReply,
) -> Result<(), NoMemory>
    ensures { OnOk result (string_bytes text.new ≡ string_bytes text.old ++ spec.reply_line number reply.now) }
{
    write!(text, "{number} ")?;
    push_reply(alloc, text, reply)?;
    push_word(text, "\n")
}

fn push_reply(alloc: Global, text: &mut String, reply: &OwnerReply) -> Result<(), NoMemory>
    ensures { OnOk result (string_bytes text.new ≡ string_bytes text.old ++ spec.reply_text reply.now) }
{
    match reply {
        OwnerReply::Accepted => push_word(text, "ok"),
        OwnerReply::State(state) => push_word(text, state_word(*state)),
        OwnerReply::Watching(list) => {
            push_word(text, "watching ")?;
            push_array(alloc, text, list.items())
        }
        OwnerReply::Changes(list) => {
            push_word(text, "changes ")?;
            push_array(alloc, text, list.items())
        }
        OwnerReply::Refused(fault) => {
            push_word(text, "refused ")?;
            push_word(text, fault_word(*fault))
        }
    }
}

fn state_word(state: OwnershipState) -> &'static str
    ensures { result.now ≡ spec.state_text state }
{
    match state {
        OwnershipState::IsOwner => "is-owner",
        OwnershipState::OwnedByOther => "owned-by-other",
        OwnershipState::NoOwner => "no-owner",
    }
}

fn fault_word(fault: OwnerFault) -> &'static str
    ensures { result.now ≡ spec.fault_text fault }
{
    match fault {
        OwnerFault::LogFull => "log-full",
        OwnerFault::AlreadyCandidate => "already-candidate",
        OwnerFault::NotCandidate => "not-candidate",
        OwnerFault::AlreadyWatching => "already-watching",
        OwnerFault::NoMemory => "no-memory",
    }
}
