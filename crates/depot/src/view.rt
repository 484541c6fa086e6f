//! What a seat knows of a depot, for contracts alone. No value of it is made.

use std::collections::LinkedList;

/// The depot's three stacks of magazines: those that are full, at most one that has some elements,
/// and those that have none.
#[derive(Clone, Copy, PartialEq, Eq, Debug)]
pub enum Stack {
    Full,
    Partial,
    Empty,
}

/// What a depot's table is told: how many elements there are, how many of them a full magazine has,
/// and how many have a place, those below this number: all in a guarded pool, and none in another.
#[derive(Clone, Copy, PartialEq, Eq, Debug)]
pub struct Shape {
    pub population: u64,
    pub rounds: u64,
    pub places: u64,
}

/// A head that was read, and the link of its top as it was then.
pub struct Look {
    pub stack: Stack,
    pub head: u64,
    pub link: u64,
}

/// A magazine that the seat has, and what its link is.
pub struct Chain {
    pub magazine: u64,
    pub link: u64,
}

/// What a seat does with elements that rest outside of the magazines, each at a place of its own.
pub struct Resting {
    /// The numbers from this one on, and below that one, are its own.
    pub from: u64,
    pub to: u64,
    /// What it has marked as out.
    pub marks: LinkedList<u64>,
    /// What it keeps in a list.
    pub listed: LinkedList<u64>,
    /// Each element that it got, as often as it did.
    pub gets: LinkedList<u64>,
    /// Each element that it put while it was out, as often as it did.
    pub puts: LinkedList<u64>,
    /// Each element that it put while another kept it.
    pub strays: LinkedList<u64>,
    /// Each element that it dropped from its list since another seat had put it.
    pub stale: LinkedList<u64>,
    /// What it found at places.
    pub found: LinkedList<(u64, u64)>,
}

/// What a seat knows.
pub struct View {
    /// How many elements the depot has, but for a seat that is spent.
    pub population: Option<u64>,
    /// How many elements a full magazine has, but for a seat that is spent.
    pub rounds: Option<u64>,
    /// Its elements.
    pub hand: LinkedList<u64>,
    /// The magazines that are out with it.
    pub out: LinkedList<u64>,
    /// What it keeps of its hand where it is cut in two.
    pub kept: LinkedList<u64>,
    pub look: Option<Look>,
    pub chain: Option<Chain>,
    /// Each head that it has read.
    pub heads: LinkedList<(Stack, u64)>,
    /// How many exchanges it has lost.
    pub lost: u64,
    /// What has left its hand for another seat.
    pub let_out: LinkedList<u64>,
    /// What has come into its hand from another seat.
    pub taken_in: LinkedList<u64>,
    pub resting: Resting,
}
