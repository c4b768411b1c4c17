// A number sinks from the root of the heap. The nodes that are done with go into the first places of a lent row.
#![tactic(auto)]

ghost use Rattle.std.specs.Prelude.{◌≡◌, Bool, List, ◌+◌, ◌≤◌, ◌<◌};
ghost use Rattle.slot_spec.specs.Row.{nodes_from};
ghost use Rattle.method_spec.specs.Heap.{way_to};
ghost use Rattle.leaf_spec.specs.Convert.{to_node};
ghost use Rattle.node_rows.specs.Row.{places};
ghost use Rattle.node_rows.specs.Held.{held_in};
ghost use Rattle.heap_descent.specs.Way.{Leads};
ghost use Rattle.heap_spans.specs.Spans.{passes_of};
ghost use Rattle.heap_sinking.specs.Sinking.{sinks_in, Placed, PassTo, SinkReady, TurnsIfHeld, SinksIfHeld};

use heap_children::{Children, above, children_of, smaller};
use heap_descent::nodes::with_value;
use heap_descent::way::{Way, goes_left};
use heap_spans::{Span, below_first, list_both, list_first, node_in};
use node_rows::{ROW, node_at};
use operation_spec::Want;
use slot_spec::Node;

// Where the number is after a turn: the span at whose first node it goes on, if it does, how many fetched nodes are taken,
// and how many nodes are done with.
#[derive(Clone, Copy)]
pub struct Sinking {
    pub span: Option<Span>,
    pub next: usize,
    pub made: usize,
}

// Whether the number sinks below the smaller child, if there is one.
fn sinks(value: u64, low: Span, held: &[u64; ROW]) -> bool
    requires { low.at + low.length ≤ places }
    ensures { (way : List Bool) → result ≡ sinks_in value (passes_of (nodes_from held.now) way low) }
{
    low.length > 0 && node_at(held, low.at).value < value
}

// Past the node n, whose children are there: the number goes on to the smaller one, or rests in n.
fn pass(
    value: u64,
    way: Way,
    n: Node,
    c: Children,
    held: &[u64; ROW],
    made: &mut [u64; ROW],
    count: usize,
) -> Sinking
    requires { Leads way × Placed count c }
    ensures { PassTo (nodes_from held.now) (way_to way.position) value (to_node n) c made.old count made.new result }
{
    let m = above(true, c.left, held, above(false, c.right, held, n));
    let l = smaller(c.left, c.right, held);
    if sinks(value, l.low, held) {
        let v = node_at(held, l.low.at).value;
        let more = list_first(way, held, with_value(v, m), l.others, made, count);
        return Sinking {
            span: Some(l.low),
            next: c.next,
            made: more,
        };
    }
    let all = list_both(
        way,
        held,
        with_value(value, m),
        c.left,
        c.right,
        made,
        count,
    );
    Sinking {
        span: None,
        next: c.next,
        made: all,
    }
}

// One level, unless a node is missing: the number is at the first node of the span, and `done` nodes are done with.
fn turn(
    value: u64,
    way: Way,
    span: Span,
    next: usize,
    done: usize,
    held: &[u64; ROW],
    count: usize,
    made: &mut [u64; ROW],
) -> Result<Sinking, Want>
    requires { Leads way × (count ≤ places) × SinkReady count way.depth span next done }
    ensures { TurnsIfHeld (held_in held.now count) (way_to way.position) value span next done made.old made.new result }
{
    let at = span.at;
    let n = node_in(way, held, at);
    let c = children_of(n, goes_left(way, at), below_first(span), count, next)?;
    Ok(pass(value, way, n, c, held, made, done))
}

// All levels, from the root, whose number has left it: as many turns as the way has nodes, unless a node is missing.
pub fn sink(
    value: u64,
    way: Way,
    held: &[u64; ROW],
    count: usize,
    made: &mut [u64; ROW],
) -> Result<Sinking, Want>
    requires { Leads way × (count ≤ places) × (0 < way.depth) × (way.depth < count) }
    ensures { SinksIfHeld (held_in held.now count) (way_to way.position) value made.new result }
{
    let mut span = Span {
        at: 0,
        length: way.depth,
    };
    let mut next = way.depth + 1;
    let mut done = 0;
    for _ in 0..way.depth {
        let r = turn(value, way, span, next, done, held, count, made)?;
        let Some(low) = r.span else {
            return Ok(r);
        };
        span = low;
        next = r.next;
        done = r.made;
    }
    let n = with_value(value, node_in(way, held, span.at));
    let all = list_first(way, held, n, below_first(span), made, done);
    Ok(Sinking {
        span: None,
        next,
        made: all,
    })
}
