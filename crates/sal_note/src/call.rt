//! The calls on notifications, and their replies.
use sal_rows::Rows;
use sal_types::{Duplicate, NoMemory, Seq};
use thiserror::Error;

/// A call of a client. Notifications are numbers of schema nodes.
#[derive(Drop)]
pub enum NoteCall {
    /// Subscribes the client to the notification (`DOMNotificationListener`).
    Subscribe { note: u32 },
    /// Offers a notification to its subscribers (`DOMNotificationPublishService`).
    Offer { note: u32, rows: Rows },
    /// Takes all notifications that wait for the client.
    TakeNotes,
}

/// A notification with its data.
#[derive(Drop)]
pub struct Note {
    pub note: u32,
    pub rows: Rows,
}

impl Duplicate for Note {
    fn copy(&self) -> Result<Self, NoMemory> {
        Ok(Note {
            note: self.note,
            rows: self.rows.copy()?,
        })
    }
}

/// Notifications in order.
pub type NoteList = Seq<Note>;

/// Why a call was refused.
#[derive(Clone, Copy, Debug, PartialEq, Eq, Error)]
pub enum NoteFault {
    /// The most notifications that may wait for this subscriber, 64, do. It is the smallest such subscriber; no client gets the
    /// notification.
    #[error("the queue of subscriber {subscriber} is full")]
    NoteRejected { subscriber: u32 },
    #[error("out of memory")]
    NoMemory,
}

/// The reply to a call.
#[derive(Drop)]
pub enum NoteReply {
    /// The call was done; there is no other result.
    Accepted,
    /// The number of subscribers that get it.
    Offered { count: u32 },
    /// The notifications that waited for the client, in order.
    Notes { list: NoteList },
    /// The call was refused.
    Refused { fault: NoteFault },
}
