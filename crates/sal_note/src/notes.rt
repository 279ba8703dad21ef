//! The notifications of a broker.
ghost use Rattle.std.specs.Prelude.{◌≡◌, ◌<◌, ◌^◌, ℕ, [], ◌∷◌, Some, true, if◌then◌else◌, is_some, length, nat_eq, not, IfOk, OnErr, OnOk};
ghost use Rattle.std.specs.BTreeMap.{insert_entry};
ghost use Rattle.std.specs.Ordering.{nat_cmp};
ghost use Rattle.sal_note.specs.declared.call.NoteCall.TheVariants.{Subscribe, Offer, TakeNotes};
ghost use Rattle.sal_note.specs.declared.call.NoteReply.TheVariants.{Accepted, Offered, Notes as Given};
ghost use Rattle.sal_note.specs.Answers.{Answers, Gives, Makes};
ghost use Rattle.sal_note.specs.Boxes as spec;
ghost use Rattle.sal_note.specs.Boxes.{Ascend, HasRoom, IsOf, box_in, clients_in, give_one, given, queue_in, take_one, taken_back};
ghost use Rattle.sal_note.specs.Queues.{with_client};

use crate::call::{Note, NoteFault, NoteList};
use crate::clients::Clients;
use crate::queue::Queue;
use sal_rows::Rows;
use sal_types::{Duplicate, NoMemory, Seq};
use std::alloc::Global;
use std::collections::BTreeMap;
use std::marker::Model;

/// The largest number of notifications that wait for a client.
pub const MAX_WAITING: usize = 64;

/// The subscribers, and the queue of each client. A contract sees the boxes of the calls.
pub struct Notes {
    subscribed: BTreeMap<u32, Clients>,
    queues: BTreeMap<u32, Queue>,
}

impl Drop for Notes {
    fn drop(self) {
        let Notes {
            subscribed: _,
            queues: _,
        } = self;
    }
}

impl Model for Notes {
    ghost use Rattle.sal_note.specs.Boxes.{Boxes};

    ghost Value = { Boxes };

    ghost view = { λ a. record { subscribed = a.subscribed.entries; queues = a.queues.entries } };
}

impl Notes {
    /// No subscribers. It takes no memory.
    pub fn new(alloc: Global) -> Notes
        ensures { IsOf [] result }
    {
        Notes {
            subscribed: BTreeMap::new(alloc),
            queues: BTreeMap::new(alloc),
        }
    }

    /// Subscribes the client to the notification, unless it is subscribed. The number of subscribers must fit 32 bits: a hub's log
    /// has fewer calls than that (`subscribers_are_callers`).
    pub fn subscribe(&mut self, alloc: Global, client: u32, note: u32) -> Result<(), NoteFault>
        requires { HasRoom self.old.subscribed }
        ensures { Answers self.old self.new client (Subscribe note) (λ _. Accepted) result }
    {
        match subscribe(alloc, &mut self.subscribed, &mut self.queues, client, note) {
            Ok(()) => Ok(()),
            Err(NoMemory) => Err(NoteFault::NoMemory),
        }
    }

    /// Gives the notification to all its subscribers, and returns their number. Refused as `NoteRejected` if
    /// 64 notifications wait for one of them, and then no client gets it.
    pub fn offer(
        &mut self,
        alloc: Global,
        client: u32,
        note: u32,
        rows: Rows,
    ) -> Result<u32, NoteFault>
        ensures { Answers self.old self.new client (Offer note rows) (λ (count : ℕ). Offered count) result }
    {
        let clients = clients_of(&self.subscribed, note);
        if let Some(subscriber) = first_full(&self.queues, clients) {
            return Err(NoteFault::NoteRejected { subscriber });
        }
        let note = Note { note, rows };
        match give_all(&mut self.queues, clients, &note) {
            Ok(()) => Ok(clients.len() as u32),
            Err(NoMemory) => Err(NoteFault::NoMemory),
        }
    }

    /// Takes all notifications that wait for the client, in order. It takes no memory.
    pub fn take_notes(&mut self, alloc: Global, client: u32) -> NoteList
        ensures { Makes self.old self.new client TakeNotes (Given result) }
    {
        take_all(alloc, &mut self.queues, client)
    }

    /// Whether a notification waits for the client: whether `take_notes` would return any. It takes no memory.
    pub fn has_notes(&self, client: u32) -> bool
        ensures { Gives self.now client TakeNotes result }
    {
        waiting(&self.queues, client) > 0
    }
}

// Subscribes the client, which has a queue then. If memory runs out, nothing changes.
fn subscribe(
    alloc: Global,
    subscribed: &mut BTreeMap<u32, Clients>,
    queues: &mut BTreeMap<u32, Queue>,
    client: u32,
    note: u32,
) -> Result<(), NoMemory>
    requires room { HasRoom subscribed.old.entries }
    ensures clients { OnOk result ((n : ℕ) → clients_in subscribed.new.entries n ≡ (if nat_eq note n then with_client client (clients_in subscribed.old.entries n) else clients_in subscribed.old.entries n)) }
    ensures queues { OnOk result ((c : ℕ) → queue_in queues.new.entries c ≡ queue_in queues.old.entries c) }
    ensures boxes { OnOk result ((c : ℕ) → is_some (box_in queues.new.entries c) ≡ (if nat_eq client c then true else is_some (box_in queues.old.entries c))) }
    ensures same_clients { OnErr result (subscribed.new.entries ≡ subscribed.old.entries) }
    ensures same_queues { OnErr result (queues.new.entries ≡ queues.old.entries) }
{
    if queues.contains_key(&client) {
        return add(alloc, subscribed, client, note);
    }
    queues.insert(client, Queue::new(alloc))?;
    if add(alloc, subscribed, client, note).is_ok() {
        return Ok(());
    }
    queues.remove(&client);
    Err(NoMemory)
}

// Adds the client to the subscribers of the notification.
fn add(
    alloc: Global,
    subscribed: &mut BTreeMap<u32, Clients>,
    client: u32,
    note: u32,
) -> Result<(), NoMemory>
    requires room { HasRoom subscribed.old.entries }
    ensures ok { OnOk result ((n : ℕ) → clients_in subscribed.new.entries n ≡ (if nat_eq note n then with_client client (clients_in subscribed.old.entries n) else clients_in subscribed.old.entries n)) }
    ensures err { OnErr result (subscribed.new.entries ≡ subscribed.old.entries) }
{
    if let Some(clients) = subscribed.get_mut(&note) {
        return clients.add(client);
    }
    let clients = Clients::one(alloc, client)?;
    subscribed.insert(note, clients)?;
    Ok(())
}

// The subscribers of the notification, ascending.
fn clients_of(subscribed: &BTreeMap<u32, Clients>, note: u32) -> &[u32]
    ensures all { result.now ≡ clients_in subscribed.entry.now.entries note }
    ensures ascend { Ascend result.now }
    ensures few { length result.now < 2 ^ 32 }
{
    match subscribed.get(&note) {
        None => &[],
        Some(clients) => clients.items(),
    }
}

// The first of the clients whose queue is full.
fn first_full(queues: &BTreeMap<u32, Queue>, clients: &[u32]) -> Option<u32>
    ensures { result ≡ spec.first_full queues.now.entries clients.now }
{
    for client in clients {
        if waiting(queues, *client) >= MAX_WAITING {
            return Some(*client);
        }
    }
    None
}

fn waiting(queues: &BTreeMap<u32, Queue>, client: u32) -> usize
    ensures { result ≡ length (queue_in queues.now.entries client) }
{
    match queues.get(&client) {
        None => 0,
        Some(queue) => queue.waiting(),
    }
}

// Gives each of the clients the notification. If memory runs out, none of them has it.
fn give_all(queues: &mut BTreeMap<u32, Queue>, clients: &[u32], note: &Note) -> Result<(), NoMemory>
    ensures ok { OnOk result (queues.new.entries ≡ given note.now queues.old.entries clients.now) }
    ensures err { OnErr result (queues.new.entries ≡ queues.old.entries) }
{
    for i in 0..clients.len() {
        match give(queues, clients[i], note) {
            Ok(()) => {}
            Err(NoMemory) => {
                take_back(queues, &clients[..i]);
                return Err(NoMemory);
            }
        }
    }
    Ok(())
}

fn give(queues: &mut BTreeMap<u32, Queue>, client: u32, note: &Note) -> Result<(), NoMemory>
    ensures ok { OnOk result (queues.new.entries ≡ give_one note.now queues.old.entries client) }
    ensures err { OnErr result (queues.new.entries ≡ queues.old.entries) }
{
    let copy = note.copy()?;
    match queues.get_mut(&client) {
        None => Ok(()),
        Some(queue) => queue.push(copy),
    }
}

// Removes the last notification of each of the clients from its queue.
fn take_back(queues: &mut BTreeMap<u32, Queue>, clients: &[u32])
    ensures { queues.new.entries ≡ taken_back queues.old.entries clients.now }
{
    let mut left = clients.len();
    while left > 0 {
        left -= 1;
        drop_last(queues, clients[left]);
    }
}

fn drop_last(queues: &mut BTreeMap<u32, Queue>, client: u32)
    ensures { queues.new.entries ≡ take_one queues.old.entries client }
{
    if let Some(queue) = queues.get_mut(&client) {
        queue.drop_last();
    }
}

// Takes all notifications that wait for the client.
fn take_all(alloc: Global, queues: &mut BTreeMap<u32, Queue>, client: u32) -> NoteList
    ensures list { result ≡ queue_in queues.old.entries client }
    ensures queues { (c : ℕ) → queue_in queues.new.entries c ≡ (if nat_eq client c then [] else queue_in queues.old.entries c) }
    ensures boxes { (c : ℕ) → is_some (box_in queues.new.entries c) ≡ is_some (box_in queues.old.entries c) }
{
    match queues.get_mut(&client) {
        None => Seq::new(alloc),
        Some(queue) => queue.take_all(alloc),
    }
}
