// Nodes at hand, by their places in the row of fetched ones. A node of the way has its link to the next one, and none at the way's
// end, whose node has left; another node is as it was fetched.
#![tactic(auto)]

ghost use Rattle.std.specs.Prelude.{◌≡◌, ◌∷◌, ◌++◌, ◌+◌, ◌≤◌, ◌<◌};
ghost use Rattle.slot_spec.specs.Row.{nodes_from};
ghost use Rattle.method_spec.specs.Heap.{way_to, passed};
ghost use Rattle.leaf_spec.specs.Convert.{to_node};
ghost use Rattle.node_rows.specs.Row.{places};
ghost use Rattle.node_rows.specs.Held.{Lists};
ghost use Rattle.heap_descent.specs.Way.{Leads};
ghost use Rattle.heap_spans.specs.Spans.{below_first, node_in, passes_of};

use heap_descent::way::{Way, goes_left};
use map_nodes::sides::with_child;
use node_rows::{ROW, node_at, set_node};
use operations::link_one;
use slot_spec::{Link, Node};

// So many nodes from a place on, each the parent of the next.
#[derive(Clone, Copy, Default)]
pub struct Span {
    pub at: usize,
    pub length: usize,
}

// The span below its first node.
pub fn below_first(span: Span) -> Span
    requires { (0 < span.length) × (span.at + span.length ≤ places) }
    ensures { result ≡ below_first span }
{
    Span {
        at: span.at + 1,
        length: span.length - 1,
    }
}

// The node in a place.
pub fn node_in(way: Way, held: &[u64; ROW], i: usize) -> Node
    requires { Leads way × (i < places) }
    ensures { to_node result ≡ node_in (nodes_from held.now) (way_to way.position) i }
{
    let n = node_at(held, i);
    if way.depth <= i {
        return n;
    }
    let left = goes_left(way, i);
    if way.depth <= i + 1 {
        return with_child(left, n, Link::default());
    }
    with_child(left, n, link_one(node_at(held, i + 1)))
}

// A span's nodes, in the next places of another row: how many there are then.
fn list_span(way: Way, held: &[u64; ROW], span: Span, made: &mut [u64; ROW], count: usize) -> usize
    requires { Leads way × (span.at + span.length ≤ places) × (count + span.length ≤ places) }
    ensures { Lists made.old count (passed (passes_of (nodes_from held.now) (way_to way.position) span)) made.new result }
{
    for i in 0..span.length {
        set_node(made, count + i, node_in(way, held, span.at + i));
    }
    count + span.length
}

// A node and the span below it.
pub fn list_first(
    way: Way,
    held: &[u64; ROW],
    n: Node,
    below: Span,
    made: &mut [u64; ROW],
    count: usize,
) -> usize
    requires { Leads way × (below.at + below.length ≤ places) × (count + below.length < places) }
    ensures { Lists made.old count (to_node n ∷ passed (passes_of (nodes_from held.now) (way_to way.position) below)) made.new result }
{
    set_node(made, count, n);
    list_span(way, held, below, made, count + 1)
}

// A node and the spans on both its sides.
pub fn list_both(
    way: Way,
    held: &[u64; ROW],
    n: Node,
    first: Span,
    second: Span,
    made: &mut [u64; ROW],
    count: usize,
) -> usize
    requires { Leads way × (first.at + first.length ≤ places) × (second.at + second.length ≤ places) × (count + first.length + second.length < places) }
    ensures { Lists made.old count (to_node n ∷ (passed (passes_of (nodes_from held.now) (way_to way.position) first) ++ passed (passes_of (nodes_from held.now) (way_to way.position) second))) made.new result }
{
    let more = list_first(way, held, n, first, made, count);
    list_span(way, held, second, made, more)
}
