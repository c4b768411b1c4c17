// A subtree at hand: its parts, and its place below a node that was passed.
ghost use Rattle.std.specs.Prelude.{◌≡◌};
ghost use Rattle.method_spec.specs.Map.{link_of, top_of, kid, with_subtree, near_on};
ghost use Rattle.leaf_spec.specs.Convert.{to_link, to_node};
ghost use Rattle.map_nodes.specs.Method.{to_kid, to_sub, to_step};
ghost use Rattle.map_nodes.specs.Heights.{LowSub};

use super::sides::{child_link, link_to, with_child};
use super::{Step, Sub};
use slot_spec::{Link, Node};

pub fn link_of(b: Sub) -> Link
    requires { LowSub 254 (to_sub b) }
    ensures { to_link result ≡ link_of (to_sub b) }
{
    match b {
        Sub::Stub(link) => link,
        Sub::Top(n, _, _) => link_to(n),
    }
}

pub fn top_of(b: Sub) -> Option<Node>
    ensures { to_kid result ≡ top_of (to_sub b) }
{
    match b {
        Sub::Stub(_) => None,
        Sub::Top(n, _, _) => Some(n),
    }
}

// The child at hand on a side.
pub fn kid_of(left: bool, b: Sub) -> Option<Node>
    ensures { to_kid result ≡ kid left (to_sub b) }
{
    match b {
        Sub::Stub(_) => None,
        Sub::Top(_, l, r) => if left { l } else { r },
    }
}

// The node that was passed, with the link to the subtree that now stands where the walk went on.
pub fn place(p: Step, b: Sub) -> Node
    requires { LowSub 254 (to_sub b) }
    ensures { to_node result ≡ with_subtree (to_step p) (to_sub b) }
{
    with_child(p.left, p.node, link_of(b))
}

// What is at hand on a side of the place.
pub fn near_on(p: Step, b: Sub, left: bool) -> Sub
    ensures { to_sub result ≡ near_on (to_step p) (to_sub b) left }
{
    if left == p.left {
        return b;
    }
    Sub::Stub(child_link(left, p.node))
}
