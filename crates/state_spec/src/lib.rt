// The state of a store; when it fits, opening, and what a ticket asks: definitions.
#![tactic(auto)]

use slot_spec::{Ahead, Link, Node};

// The waiting places of a state. Document 01: "It has 101 places for waiting nodes".
pub const PLACES: usize = 101;

// A place for a waiting node. An unused one is all zero.
#[derive(Clone, Copy, PartialEq, Eq, Default)]
pub struct Place {
    pub full: bool,
    pub node: Node,
}

// Which of its two fields a kind of tickets uses.
#[derive(Clone, Copy, PartialEq, Eq, Default)]
pub struct Uses {
    pub key: bool,
    pub value: bool,
}

#[derive(Clone, Copy)]
pub struct State {
    // 0: open; otherwise the number with which the store was closed.
    pub mark: u8,
    // 1 map, 2 stack, 3 heap, 4 queue.
    pub structure: u8,
    pub size: u8,
    pub entries: u16,
    pub root: Link,
    // A queue's next unused key and its tag drawn ahead.
    pub ahead: Ahead,
    // The waiting nodes (the stash), in ascending key order: the first `count` places.
    pub count: u16,
    pub places: [Place; 101],
}
