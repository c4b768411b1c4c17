// The slot format and the bucket tree: what stands in the 32 bytes of a slot, and where in a lent tree.
#![tactic(auto)]

// A slot's length in bytes, and that of a bucket of four slots.
pub const SLOT_LENGTH: usize = 32;

pub const BUCKET_LENGTH: usize = 4 * SLOT_LENGTH;

// A link to a node: height 0 means that there is none. A tag is a leaf number, the node's position tag. The fields of link and
// node stand in the order in which they take least room: a link 8 bytes, a node 32.
#[derive(Clone, Copy, PartialEq, Eq, Default)]
pub struct Link {
    pub key: u32,
    pub tag: u16,
    pub height: u8,
}

// What a queue's state knows of the node that comes next: its key, the next unused one, and its tag, drawn ahead. For the other
// structures both are zero.
#[derive(Clone, Copy, PartialEq, Eq, Default)]
pub struct Ahead {
    pub key: u32,
    pub tag: u16,
}

#[derive(Clone, Copy, PartialEq, Eq, Default)]
pub struct Node {
    pub value: u64,
    pub key: u32,
    pub tag: u16,
    pub left: Link,
    pub right: Link,
}

// What a slot holds.
#[derive(Clone, Copy)]
pub enum Reading {
    Full(Node),
    Empty,
    Bad,
}

// A slot's 32 bytes as four little-endian words: flag, heights, zero and key; left and right key; the three tags and
// two zero bytes; the value.
#[derive(Clone, Copy, PartialEq, Eq, Default)]
pub struct Slot {
    pub a: u64,
    pub b: u64,
    pub c: u64,
    pub d: u64,
}
