//! The queue of a client.
ghost use Rattle.std.specs.Prelude.{◌≡◌, ◌-◌, [], ◌∷◌, ◌++◌, length, take, OnErr, OnOk};

use crate::call::{Note, NoteList};
use sal_types::{NoMemory, Seq};
use std::alloc::Global;
use std::marker::Model;
use std::mem;

/// Notifications in the order in which they were offered.
#[derive(Drop)]
pub(crate) struct Queue {
    list: Vec<Note>,
}

impl Model for Queue {
    ghost use Rattle.std.specs.Prelude.{List};
    ghost use Rattle.sal_note.specs.declared.call.Note.{Note};

    ghost Value = { List Note };

    ghost view = { λ a. a.list.items };
}

impl Queue {
    /// The empty queue. It takes no memory.
    pub(crate) fn new(alloc: Global) -> Queue
        ensures { result ≡ [] }
    {
        Queue {
            list: Vec::new(alloc),
        }
    }

    /// The number of notifications. It takes no memory.
    pub(crate) fn waiting(&self) -> usize
        ensures { result ≡ length self.now }
    {
        self.list.len()
    }

    /// Appends the notification.
    pub(crate) fn push(&mut self, note: Note) -> Result<(), NoMemory>
        ensures ok { OnOk result (self.new ≡ self.old ++ note ∷ []) }
        ensures err { OnErr result (self.new ≡ self.old) }
    {
        self.list.push(note)?;
        Ok(())
    }

    /// Removes the last one. It takes no memory.
    pub(crate) fn drop_last(&mut self)
        ensures { self.new ≡ take (length self.old - 1) self.old }
    {
        self.list.pop();
    }

    /// Takes all of them. It takes no memory.
    pub(crate) fn take_all(&mut self, alloc: Global) -> NoteList
        ensures all { result ≡ self.old }
        ensures none { self.new ≡ [] }
    {
        Seq::from_items(mem::replace(&mut self.list, Vec::new(alloc)))
    }
}
