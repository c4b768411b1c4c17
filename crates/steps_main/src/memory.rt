// The nodes that no call holds, in no order.
ghost use Rattle.std.specs.Prelude.{◌≡◌, ◌≤◌, ◌<◌, length, IfSome};
ghost use Rattle.node_rows.specs.Row.{places, words};

use node_rows::{ROW, node_at};
use operation_spec::Outcome;
use short_outcomes::OneMade;
use slot_spec::{Link, Node};

#[derive(Clone, Copy)]
pub struct Memory {
    pub nodes: [Node; 16],
    pub count: usize,
    pub root: Link,
    pub entries: u16,
}

pub fn empty() -> Memory
    ensures { result.count ≤ 16 }
{
    Memory {
        nodes: [Node::default(); 16],
        count: 0,
        root: Link::default(),
        entries: 0,
    }
}

// The number of the node that a link leads to, by its key and tag.
pub fn find(memory: Memory, link: Link) -> Option<usize>
    requires { memory.count ≤ 16 }
    ensures { IfSome result (λ i. i < memory.count) }
{
    for i in 0..memory.count {
        let n = memory.nodes[i];
        if n.key == link.key && n.tag == link.tag {
            return Some(i);
        }
    }
    None
}

// The memory without a node; the last one takes its place.
pub fn without(memory: Memory, i: usize) -> Memory
    requires { (i < memory.count) × (memory.count ≤ 16) }
    ensures { result.count ≤ 16 }
{
    let mut m = memory;
    let last = m.count - 1;
    let n = m.nodes[last];
    m.nodes[i] = n;
    m.count = last;
    m
}

// The memory with one more node, where there is room.
fn with_node(memory: Memory, n: Node) -> Memory
    requires { memory.count ≤ 16 }
    ensures { result.count ≤ 16 }
{
    let mut m = memory;
    let at = m.count;
    if at < 16 {
        m.nodes[at] = n;
        m.count = at + 1;
    }
    m
}

// The memory with what a step makes, whose nodes are in a row.
pub fn put_back(memory: Memory, o: Outcome, made: &[u64; ROW]) -> Memory
    requires { (memory.count ≤ 16) × (o.made ≤ places) × (length made.now ≡ words) }
    ensures { result.count ≤ 16 }
{
    let mut m = memory;
    for i in 0..o.made {
        m = with_node(m, node_at(made, i));
    }
    m.root = o.root;
    m.entries = o.entries;
    m
}

// The memory with what a step makes, which is at most one node.
pub fn put_one(memory: Memory, o: OneMade) -> Memory
    requires { memory.count ≤ 16 }
    ensures { result.count ≤ 16 }
{
    let mut m = memory;
    m.root = o.root;
    m.entries = o.entries;
    match o.node {
        Some(n) => with_node(m, n),
        None => m,
    }
}

// The number of the node with the least key from `least` on.
pub fn next_from(memory: Memory, least: u64) -> Option<usize>
    requires { memory.count ≤ 16 }
    ensures { IfSome result (λ i. i < memory.count) }
{
    let mut next = None;
    let mut nearest: u64 = 4294967296;
    for i in 0..memory.count {
        let key = u64::from(memory.nodes[i].key);
        if key >= least && key < nearest {
            next = Some(i);
            nearest = key;
        }
    }
    next
}
