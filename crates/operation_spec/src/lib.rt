// What a ticket asks, what is answered, and what an operation wants on its way: the words that the structures share.
#![tactic(auto)]

use slot_spec::{Ahead, Link};

// What a ticket asks.
#[derive(Clone, Copy)]
pub enum Op {
    Get(u32),
    Put(u32, u64),
    Remove(u32),
    Push(u64),
    Pop,
    Add(u64),
    Take,
    Enqueue(u64),
    Dequeue,
}

#[derive(Clone, Copy)]
pub enum Answer {
    Found(u64),
    Absent,
    Replaced(u64),
    New,
    Removed(u64),
    Pushed,
    Popped(u64),
    Added,
    Taken(u64),
    Queued,
    Dequeued(u64),
    Empty,
}

// What a full store's put, push, add and enqueue answer: a call tells it as a refusal.
#[derive(Clone, Copy)]
pub struct Full;

// Where a link stands: it is the root link, or that of the node with that key on a side, the left or else the right. No Option,
// since the root link's place is a place like the others.
#[derive(Clone, Copy)]
pub enum From {
    Root,
    Side(u32, bool),
}

// A wanted node: the link that leads to it, where that link stands, and the nearest keys below and above that the walk
// passed on its way, where it passed any.
#[derive(Clone, Copy)]
pub struct Want {
    pub link: Link,
    pub from: From,
    pub low: Option<u32>,
    pub high: Option<u32>,
}

// What a new node's tags come from: the first two spare draws, and what a queue's state knows ahead.
#[derive(Clone, Copy)]
pub struct Spares {
    pub first: u16,
    pub second: u16,
    pub ahead: Ahead,
}

// A step: the root link, the entries, the answer, and how many nodes it made, which are in the first places of a lent row.
#[derive(Clone, Copy)]
pub struct Outcome {
    pub made: usize,
    pub root: Link,
    pub entries: u16,
    pub answer: Result<Answer, Full>,
}
