// A number that rises from a new position of the heap: the nodes of the way to it, from there up to the root.
#![tactic(auto)]

ghost use Rattle.std.specs.Prelude.{◌≡◌, ℕ};
ghost use Rattle.method_spec.specs.Heap.{way_to};
ghost use Rattle.leaf_spec.specs.Convert.{to_node};
ghost use Rattle.node_rows.specs.Held.{held_in};
ghost use Rattle.heap_descent.specs.Way.{Leads};
ghost use Rattle.heap_rising.specs.Rising.{LiftsTo, RisesTo};

use heap_descent::nodes::with_value;
use heap_descent::way::{Way, goes_left};
use map_nodes::sides::with_child;
use node_rows::{ROW, node_at, set_node};
use operations::link_one;
use slot_spec::Node;

// One level of the way up: the lower node, which is done with, the upper one with its link to it, and whether the number still
// rises.
#[derive(Clone, Copy)]
pub struct Lifted {
    pub lower: Node,
    pub upper: Node,
    pub rising: bool,
}

// From the node n to the node p, in which the way went on to a side. The number rises where it is smaller than the parent's.
fn lift(n: Node, p: Node, left: bool, rising: bool) -> Lifted
    ensures { LiftsTo (to_node n) (to_node p) left rising result }
{
    let upper = with_child(left, p, link_one(n));
    if rising && n.value < p.value {
        return Lifted {
            lower: with_value(p.value, n),
            upper: with_value(n.value, upper),
            rising: true,
        };
    }
    Lifted {
        lower: n,
        upper,
        rising: false,
    }
}

// All levels of the way: the nodes go into the first places of a lent row, the lowest first. The root's is handed back too.
pub fn rise(n: Node, way: Way, held: &[u64; ROW], made: &mut [u64; ROW]) -> Node
    requires { Leads way }
    ensures { (count : ℕ) → RisesTo (held_in held.now count) (way_to way.position) (to_node n) made.new (to_node result) }
{
    let mut top = n;
    let mut rising = true;
    for i in (0..way.depth).rev() {
        let r = lift(top, node_at(held, i), goes_left(way, i), rising);
        set_node(made, way.depth - 1 - i, r.lower);
        top = r.upper;
        rising = r.rising;
    }
    set_node(made, way.depth, top);
    top
}
