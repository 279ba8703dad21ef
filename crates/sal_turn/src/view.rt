//! What a seat knows.
use std::collections::LinkedList;

/// The state of a seat, between two turns or in one.
pub enum Stage<E> {
    /// Another seat took its knowledge over.
    Spent,
    /// It is between two turns.
    Idle,
    /// It is about to give this number away.
    Names(u64),
    /// It has this ticket, and waits.
    Waits(u64),
    /// The turn of this ticket has come, with these entries.
    HasTurn(u64, LinkedList<E>),
    /// It took in another seat; of the two lists seen this is the shorter.
    Compares(LinkedList<E>),
}

/// What a seat knows. No value of it exists at run time, so its numbers and lists have no bounds.
pub struct View<E, G> {
    /// Its state. A contract meets only `Idle`.
    pub stage: Stage<E>,
    /// The number of its client.
    pub number: u64,
    /// The ground of the value that its lock was opened with; none once the seat is spent.
    pub ground: Option<G>,
    /// The entries that it has seen: all that existed when its last turn ended.
    pub seen: LinkedList<E>,
    /// The entries of its number, in order.
    pub own: LinkedList<E>,
    /// How many turns it has had.
    pub turns: u64,
    /// Whether it may split and close: the opening seat may, and a join that holds it.
    pub splits: bool,
    /// If it may split, the numbers given: that of the opening seat, then those given away, in order.
    pub given: LinkedList<u64>,
    /// The numbers of the seats that it took in, each with their own entries, in order.
    pub joined: LinkedList<(u64, LinkedList<E>)>,
}
