// The steps of a walk down that has come to its end, one by one.
ghost use Rattle.std.specs.Prelude.{◌≡◌, ◌≤◌, ◌<◌, ltb};
ghost use Rattle.list_spec.specs.Choice.{pick};
ghost use Rattle.method_spec.specs.Prog as prog;
ghost use Rattle.method_spec.specs.Map as map;
ghost use Rattle.leaf_spec.specs.Convert.{to_link, to_node};
ghost use Rattle.node_rows.specs.Heights.{Low};
ghost use Rattle.node_rows.specs.Held.{held_in};
ghost use Rattle.map_nodes.specs.Method.{to_step};
ghost use Rattle.map_descent.specs.Walk.{Walks};
ghost use Rattle.map_descent.specs.PathTo.{step_to};

use map_nodes::Step;
use map_nodes::wants::{below, step_at};
use node_rows::{ROW, node_at};
use operations::start;
use slot_spec::{Link, Node};

// The side on which the walk went on from the fetched node i: by key before the node with the key, then once to the right,
// then to the left.
fn goes_left(key: u32, found: usize, i: usize, n: Node) -> bool
    ensures { result ≡ pick (ltb i found) (ltb key n.key) (ltb found i) }
{
    if i < found { key < n.key } else { found < i }
}

// The step, where it stands at the node that is removed with the entry of the next larger key's node for its own.
fn exchanged(p: Step, here: bool, y: Node) -> Step
    ensures { to_step result ≡ pick here (map.swapped (to_step p) (to_node y)) (to_step p) }
{
    if !here {
        return p;
    }
    Step {
        node: Node {
            left: p.node.left,
            right: p.node.right,
            ..y
        },
        ..p
    }
}

// The step over the fetched node i of a path over the first fetched nodes, as many as `last` says. Where the path goes past
// the node with the key, which is number `found`, that takes the entry of the node after the path.
pub fn step_to(
    key: u32,
    root: Link,
    held: &[u64; ROW],
    count: usize,
    found: usize,
    last: usize,
    i: usize,
) -> Step
    requires { Walks root (held_in held.now count) × (i < last) × (last ≤ count) }
    ensures { (to_step result ≡ step_to key (held_in held.now count) (prog.start (to_link root)) found last i) × Low 100 (to_node result.node) }
{
    let mut want = start(root);
    for j in 0..i {
        let n = node_at(held, j);
        want = below(step_at(want, n, goes_left(key, found, j, n)));
    }
    let n = node_at(held, i);
    let y = node_at(held, last);
    exchanged(step_at(want, n, goes_left(key, found, i, n)), i == found, y)
}
