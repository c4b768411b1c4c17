// Steps down the tree, and the node that is wanted below each.
ghost use Rattle.std.specs.Prelude.{◌≡◌};
ghost use Rattle.method_spec.specs.Map as map;
ghost use Rattle.leaf_spec.specs.Convert.{to_link, to_node};
ghost use Rattle.operation_spec.specs.Method.{to_want};
ghost use Rattle.map_nodes.specs.Method.{to_step};

use super::Step;
use super::sides::child_link;
use operation_spec::{From, Want};
use slot_spec::{Link, Node};

// The step over a node that was wanted, on to a side.
pub fn step_at(want: Want, n: Node, left: bool) -> Step
    ensures { to_step result ≡ map.step_at (to_want want) (to_node n) left }
{
    Step {
        node: n,
        was: n.key,
        left,
        low: want.low,
        high: want.high,
    }
}

// The node behind a link on a side of a node that was passed.
pub fn beside(p: Step, left: bool, link: Link) -> Want
    ensures { to_want result ≡ map.beside (to_step p) left (to_link link) }
{
    let passed = Some(p.was);
    Want {
        link,
        from: From::Side(p.was, left),
        low: if left { p.low } else { passed },
        high: if left { passed } else { p.high },
    }
}

// The node on which a step goes on.
pub fn below(p: Step) -> Want
    ensures { to_want result ≡ map.below (to_step p) }
{
    beside(p, p.left, child_link(p.left, p.node))
}
