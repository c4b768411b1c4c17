// The links of a node on its sides, and the link to it.
ghost use Rattle.std.specs.Prelude.{◌≡◌};
ghost use Rattle.method_spec.specs.Node.{child, with_child, link_to};
ghost use Rattle.leaf_spec.specs.Convert.{to_link, to_node};
ghost use Rattle.node_rows.specs.Heights.{Low};

use slot_spec::{Link, Node};

// The link of a node on a side, the left or else the right.
pub fn child_link(left: bool, n: Node) -> Link
    ensures { to_link result ≡ child left (to_node n) }
{
    if left { n.left } else { n.right }
}

// The node with another link on a side.
pub fn with_child(left: bool, n: Node, link: Link) -> Node
    ensures { to_node result ≡ with_child left (to_node n) (to_link link) }
{
    let mut m = n;
    if left {
        m.left = link;
    } else {
        m.right = link;
    }
    m
}

// The link to a node of the map: its height is that of its taller side and 1.
pub fn link_to(n: Node) -> Link
    requires { Low 254 (to_node n) }
    ensures { to_link result ≡ link_to (to_node n) }
{
    Link {
        height: n.left.height.max(n.right.height) + 1,
        key: n.key,
        tag: n.tag,
    }
}
