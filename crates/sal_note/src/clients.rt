//! The subscribers of a notification.
ghost use Rattle.std.specs.Prelude.{◌≡◌, ◌+◌, ◌<◌, ◌≤◌, ◌^◌, [], ◌∷◌, length, nat_le, OnErr, OnOk, IfOk};
ghost use Rattle.std.specs.List.{position};
ghost use Rattle.sal_note.specs.Clients.{first_from, stands_at};
ghost use Rattle.sal_note.specs.Boxes.{Ascend};
ghost use Rattle.sal_note.specs.Queues.{with_client};

use sal_types::NoMemory;
use std::alloc::Global;
use std::marker::Model;

/// Clients in ascending order, each once, at most 4,294,967,295.
#[derive(Drop)]
pub(crate) struct Clients {
    list: Vec<u32>,
}

impl Model for Clients {
    ghost use Rattle.std.specs.Prelude.{List, ℕ};
    ghost use Rattle.sal_note.specs.Boxes.{AreClients};

    ghost Value = { List ℕ };

    ghost view = { λ a. a.list.items };

    ghost invariant = { λ a. AreClients a.list.items };
}

impl Clients {
    /// One client.
    pub(crate) fn one(alloc: Global, client: u32) -> Result<Clients, NoMemory>
        ensures { IfOk result (λ cs. cs ≡ client ∷ []) }
    {
        let mut list = Vec::new(alloc);
        list.push(client)?;
        Ok(Clients { list })
    }

    /// The clients. It takes no memory.
    pub(crate) fn items(&self) -> &[u32]
        ensures all { result.now ≡ self.now }
        ensures ascend { Ascend self.now }
        ensures few { length self.now < 2 ^ 32 }
    {
        &self.list
    }

    /// Adds the client, if it is not one of them.
    pub(crate) fn add(&mut self, client: u32) -> Result<(), NoMemory>
        requires { length self.old + 1 < 2 ^ 32 }
        ensures ok { OnOk result (self.new ≡ with_client client self.old) }
        ensures err { OnErr result (self.new ≡ self.old) }
    {
        let at = first_from(&self.list, client);
        if stands_at(&self.list, at, client) {
            return Ok(());
        }
        self.list.insert(at, client)?;
        Ok(())
    }
}

// The index of the first client that is not below this one.
fn first_from(list: &[u32], client: u32) -> usize
    ensures place { result ≡ first_from client list.now }
    ensures within { result ≤ length list.now }
{
    not_below(list, client).unwrap_or(list.len())
}

fn not_below(list: &[u32], client: u32) -> Option<usize>
    ensures { result ≡ position (λ other. nat_le client other) list.now }
{
    list.iter().position(|other| client <= *other)
}

fn stands_at(list: &[u32], at: usize, client: u32) -> bool
    ensures { result ≡ stands_at at client list.now }
{
    at < list.len() && list[at] == client
}
