//! The steps of a client for notifications.
ghost use Rattle.serde_json.specs.View.{view};
ghost use Rattle.sal_script.specs.Moves.{Subscribe, Offer};
ghost use Rattle.sal_client.specs.Leaving.{Leaves};
ghost use Rattle.sal_client.specs.declared.wish.Wish.TheVariants.{Note as NoteCall};

use crate::answers::{accepted, answer_to, notes, offered};
use crate::client::ClientState;
use crate::messages::{note_of, rows_under};
use crate::readers::Readers;
use crate::wish::{CallResult, Wish, Wished};
use sal_hub::{Hub, laws};
use sal_rows::Rows;
use sal_types::Str;
use serde_json::Value;
use std::alloc::Global;
use std::snapshot::Snapshot;

/// A call for notifications that a client is ready to make. Only contracts use the names and values that were read.
#[derive(Drop)]
pub enum NoteWish {
    /// Subscribes the client to the notification.
    Subscribe {
        name: Snapshot<Str>,
        note: u32,
    },
    /// Offers the notification with these rows to its subscribers.
    Offer {
        name: Snapshot<Str>,
        value: Snapshot<Value>,
        note: u32,
        rows: Rows,
    },
    /// Takes all notifications that wait for the client.
    TakeNotes,
}

impl ClientState {
    ghost use Rattle.sal_client.specs.Clients.{IsSound};
    ghost use Rattle.sal_client.specs.Wishes.{Wants};

    /// To subscribe to the notification of this name, if there is one.
    pub(crate) fn subscribe_wish(&self, readers: &Readers, name: &Str) -> Wished
        ensures { Wants readers.now self.now (Subscribe name.now) result }
    {
        let note = note_of(readers.own().schema(), name)?;
        Ok(Wish::Note(NoteWish::Subscribe {
            name: Snapshot::of(name),
            note,
        }))
    }

    /// To offer the notification of this name, if the value is data of it.
    pub(crate) fn offer_wish(
        &self,
        alloc: Global,
        readers: &Readers,
        name: &Str,
        value: &Value,
    ) -> Wished
        ensures { Wants readers.now self.now (Offer name.now (view value.now)) result }
    {
        let reader = readers.own();
        let note = note_of(reader.schema(), name)?;
        let rows = rows_under(alloc, reader, note, value)?;
        Ok(Wish::Note(NoteWish::Offer {
            name: Snapshot::of(name),
            value: Snapshot::of(value),
            note,
            rows,
        }))
    }

    /// Makes the call for notifications. It changes no slot.
    pub(crate) fn call_note(&self, alloc: Global, hub: &mut Hub, wish: NoteWish) -> CallResult
        requires sound { IsSound hub.old self.now }
        ensures { Leaves (NoteCall wish) hub.old self.now hub.new self.now result }
    {
        laws::tokens_last();
        match wish {
            NoteWish::Subscribe { note, .. } => {
                answer_to(accepted(hub.subscribe(alloc, self.number, note)))
            }
            NoteWish::Offer { note, rows, .. } => {
                answer_to(offered(hub.offer(alloc, self.number, note, rows)))
            }
            NoteWish::TakeNotes => answer_to(notes(hub.take_notes(alloc, self.number))),
        }
    }
}
