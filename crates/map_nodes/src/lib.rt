// Nodes of the map: their sides, the steps of a walk over them, subtrees as they are at hand, and the fetch test.
#![tactic(auto)]

use slot_spec::{Link, Node};

// A subtree as it is at hand: its link alone, or its top node and those of its children that were fetched too.
#[derive(Clone, Copy)]
pub enum Sub {
    Stub(Link),
    Top(Node, Option<Node>, Option<Node>),
}

// A node that the walk passed: the key that it had when it was passed, the side on which the walk went on, and the
// nearest keys below and above that it had passed before.
#[derive(Clone, Copy)]
pub struct Step {
    pub node: Node,
    pub was: u32,
    pub left: bool,
    pub low: Option<u32>,
    pub high: Option<u32>,
}

pub mod fetch_test;
pub mod sides;
pub mod subtree;
pub mod wants;
