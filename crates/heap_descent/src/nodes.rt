// Nodes of the heap: the node that is wanted on a side, and a node with another number.
ghost use Rattle.std.specs.Prelude.{◌≡◌};
ghost use Rattle.method_spec.specs.Node.{with_value};
ghost use Rattle.method_spec.specs.Heap as heap;
ghost use Rattle.leaf_spec.specs.Convert.{to_node};
ghost use Rattle.operation_spec.specs.Method.{to_want};

use map_nodes::sides::child_link;
use operation_spec::{From, Want};
use slot_spec::Node;

// The link of a node on a side, as a wanted one.
pub fn beneath(n: Node, left: bool) -> Want
    ensures { to_want result ≡ heap.beneath (to_node n) left }
{
    Want {
        link: child_link(left, n),
        from: From::Side(n.key, left),
        low: None,
        high: None,
    }
}

// The node with another number.
pub fn with_value(value: u64, n: Node) -> Node
    ensures { to_node result ≡ with_value value (to_node n) }
{
    Node { value, ..n }
}
