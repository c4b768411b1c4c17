// What a slot's words are read as, and whether a slot can be good for a node.
#![tactic(auto)]

ghost use Rattle.std.specs.Prelude.{◌≡◌, ◌≤◌};
ghost use Rattle.slot_spec.specs.Slot.{slot_bytes, slot_link_good, well_formed, read_slot};

use slot_fields::{is_zero, node_of};
use slot_spec::{Link, Node, Reading, Slot};
use tree_paths::{leaves, passes_bucket};

// A link that no slot is bad for: an absent one has no key or tag, and the tag is a leaf of a tree of that size.
fn link_good(size: usize, link: Link) -> bool
    requires { size ≤ 16 }
    ensures { result ≡ slot_link_good size link }
{
    if link.height == 0 {
        return link.key == 0 && link.tag == 0;
    }
    usize::from(link.tag) < leaves(size)
}

// A node that no slot is bad for, its bucket not asked about.
pub fn well_formed(size: usize, n: Node) -> bool
    requires { size ≤ 16 }
    ensures { result ≡ well_formed size n }
{
    usize::from(n.tag) < leaves(size) && link_good(size, n.left) && link_good(size, n.right)
}

// What the slot is read as in a bucket of a tree of that size.
pub fn reading(x: Slot, size: usize, bucket: usize) -> Reading
    requires { size ≤ 16 }
    ensures { result ≡ read_slot size bucket (slot_bytes x) }
{
    if is_zero(x) {
        return Reading::Empty;
    }
    if x.a % 256 != 1 || x.a / 16777216 % 256 != 0 || x.c / 281474976710656 != 0 {
        return Reading::Bad;
    }
    let n = node_of(x);
    if !well_formed(size, n) || !passes_bucket(size, usize::from(n.tag), bucket) {
        return Reading::Bad;
    }
    Reading::Full(n)
}
