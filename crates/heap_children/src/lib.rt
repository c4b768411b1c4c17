// The children of a node from which a number sinks, and the smaller one of them.
#![tactic(auto)]

ghost use Rattle.std.specs.Prelude.{◌≡◌, Bool, List, ◌+◌, ◌≤◌};
ghost use Rattle.list_spec.specs.Choice.{pick};
ghost use Rattle.slot_spec.specs.Row.{nodes_from};
ghost use Rattle.method_spec.specs.Heap as heap;
ghost use Rattle.leaf_spec.specs.Convert.{to_node};
ghost use Rattle.node_rows.specs.Row.{places};
ghost use Rattle.heap_spans.specs.Spans.{no_span, passes_of};
ghost use Rattle.heap_children.specs.Children.{ChildIfHeld, ChildrenIfHeld, LowerOf};

use heap_descent::nodes::beneath;
use heap_spans::Span;
use map_nodes::sides::{child_link, with_child};
use node_rows::{ROW, node_at};
use operation_spec::Want;
use operations::link_one;
use slot_spec::Node;

// A child with what is at hand below it, and how many fetched nodes are taken.
#[derive(Clone, Copy)]
pub struct Child {
    pub span: Span,
    pub next: usize,
}

// A child of the node n on a side, where `below` is at hand: that; or there is none; or it is the next fetched node, unless
// that is missing.
fn child_of(n: Node, left: bool, below: Span, count: usize, next: usize) -> Result<Child, Want>
    requires { (below.at + below.length ≤ count) × (next ≤ count) × (count ≤ places) }
    ensures { ChildIfHeld (to_node n) left below count next result }
{
    if below.length > 0 || child_link(left, n).height == 0 {
        return Ok(Child { span: below, next });
    }
    if next == count {
        return Err(beneath(n, left));
    }
    let span = Span {
        at: next,
        length: 1,
    };
    Ok(Child {
        span,
        next: next + 1,
    })
}

// What is at hand, on its own side.
fn span_if(here: bool, below: Span) -> Span
    ensures { result ≡ pick here below no_span }
{
    if here { below } else { Span::default() }
}

// Both children.
#[derive(Clone, Copy)]
pub struct Children {
    pub left: Span,
    pub right: Span,
    pub next: usize,
}

// The children of the node n, the left one first, where `below` is at hand on the side of the turn, unless one is missing.
pub fn children_of(
    n: Node,
    turn: bool,
    below: Span,
    count: usize,
    next: usize,
) -> Result<Children, Want>
    requires { (below.at + below.length ≤ count) × (next ≤ count) × (count ≤ places) }
    ensures { ChildrenIfHeld (to_node n) turn below count next result }
{
    let a = child_of(n, true, span_if(turn, below), count, next)?;
    let b = child_of(n, false, span_if(!turn, below), count, a.next)?;
    Ok(Children {
        left: a.span,
        right: b.span,
        next: b.next,
    })
}

// The node with its link to the child on a side, where there is one.
pub fn above(left: bool, span: Span, held: &[u64; ROW], n: Node) -> Node
    requires { (span.at + span.length ≤ places) }
    ensures { (way : List Bool) → to_node result ≡ heap.above left (passes_of (nodes_from held.now) way span) (to_node n) }
{
    if span.length == 0 {
        return n;
    }
    with_child(left, n, link_one(node_at(held, span.at)))
}

// The smaller child, if there is one, and the other.
#[derive(Clone, Copy)]
pub struct Lower {
    pub low: Span,
    pub others: Span,
}

// The smaller of two children, the left one on equal.
pub fn smaller(left: Span, right: Span, held: &[u64; ROW]) -> Lower
    requires { (left.at + left.length ≤ places) × (right.at + right.length ≤ places) }
    ensures { LowerOf (nodes_from held.now) left right result }
{
    let left_first = Lower {
        low: left,
        others: right,
    };
    let right_first = Lower {
        low: right,
        others: left,
    };
    if right.length == 0 {
        return left_first;
    }
    if left.length == 0 {
        return right_first;
    }
    if node_at(held, left.at).value <= node_at(held, right.at).value {
        return left_first;
    }
    right_first
}
