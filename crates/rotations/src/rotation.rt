// Rotations of a few nodes by value.
ghost use Rattle.std.specs.Prelude.{◌≡◌, []};
ghost use Rattle.std.proofs.Math.Option.{none};
ghost use Rattle.method_spec.specs.Map.{seat};
ghost use Rattle.method_spec.specs.Map as map;
ghost use Rattle.leaf_spec.specs.Convert.{to_node};
ghost use Rattle.node_rows.specs.Heights.{Low};
ghost use Rattle.map_nodes.specs.Method.{to_kid, to_sub};
ghost use Rattle.rotations.specs.Raise.{to_rotated};

use map_nodes::Sub;
use map_nodes::sides::{child_link, link_to, with_child};
use slot_spec::Node;

// The two nodes of a rotation.
#[derive(Clone, Copy)]
pub struct Rotated {
    pub up: Node,
    pub down: Node,
}

// The child of a node on a side comes up, and the node goes down on the other side.
pub fn rotate(left: bool, n: Node, c: Node) -> Rotated
    requires { Low 254 (to_node n) × Low 254 (to_node c) }
    ensures { to_rotated result ≡ map.rotate left (to_node n) (to_node c) }
{
    let down = with_child(left, n, child_link(!left, c));
    let up = with_child(!left, c, link_to(down));
    Rotated { up, down }
}

// A node with the children at hand on a side and on the other.
pub fn seated(left: bool, n: Node, near: Option<Node>, far: Option<Node>) -> Sub
    ensures { to_sub result ≡ seat left (to_node n) (to_kid near) (to_kid far) }
{
    if left {
        Sub::Top(n, near, far)
    } else {
        Sub::Top(n, far, near)
    }
}

// A single rotation: the child that does not lean inward comes up.
pub fn single(left: bool, n: Node, c: Node, outer: Option<Node>) -> Sub
    requires { Low 253 (to_node n) × Low 253 (to_node c) }
    ensures { to_sub result ≡ (map.single left (to_node n) (to_node c) (to_kid outer) none []).sub }
{
    let r = rotate(left, n, c);
    seated(left, r.up, outer, Some(r.down))
}

// A double rotation: the inner child comes up over the child, then over the node.
pub fn double(left: bool, n: Node, c: Node, inner: Node) -> Sub
    requires { Low 253 (to_node n) × (Low 253 (to_node c) × Low 253 (to_node inner)) }
    ensures { to_sub result ≡ (map.double left (to_node n) (to_node c) (to_node inner) none []).sub }
{
    let r = rotate(!left, c, inner);
    let q = rotate(left, n, r.up);
    seated(left, q.up, Some(r.down), Some(q.down))
}
