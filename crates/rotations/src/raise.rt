// One level of the way up: the subtree that changed stands again below the node above it, which is rotated if it got too
// tall on a side. A rotation takes the nodes that it needs from those at hand, or else from those fetched, in order.
ghost use Rattle.std.specs.Prelude.{◌≡◌, not, [], MatchOption};
ghost use Rattle.method_spec.specs.Node.{child};
ghost use Rattle.method_spec.specs.Map as map;
ghost use Rattle.leaf_spec.specs.Convert.{to_node};
ghost use Rattle.operation_spec.specs.Method.{to_want};
ghost use Rattle.node_rows.specs.Heights.{Low};
ghost use Rattle.node_rows.specs.Held.{held_in, HeldFrom};
ghost use Rattle.map_nodes.specs.Method.{to_kid, to_sub, to_step};
ghost use Rattle.map_nodes.specs.Heights.{LowKid, LowSub};
ghost use Rattle.rotations.specs.Raise.{Lacks, Opens, RaisesIfHeld, list_of, built_of, turn_over, level};

use super::rotation::{double, seated, single};
use map_balance::{is_tall, leans_out};
use map_nodes::sides::child_link;
use map_nodes::subtree::{kid_of, near_on, place, top_of};
use map_nodes::wants::{below, beside, step_at};
use map_nodes::{Step, Sub};
use node_rows::{ROW, node_at};
use operation_spec::Want;
use slot_spec::Node;

// A node that was wanted, and how many fetched nodes are taken.
#[derive(Clone, Copy)]
pub struct Opened {
    pub node: Node,
    pub next: usize,
}

// The node that is at hand, or else the next of the fetched nodes, if there is one.
fn open_kid(kid: Option<Node>, held: &[u64; ROW], count: usize, next: usize) -> Option<Opened>
    requires { HeldFrom 250 (held_in held.now count) next × LowKid 250 (to_kid kid) }
    ensures { MatchOption result (Lacks (to_kid kid) (held_in held.now count) next) (Opens (to_kid kid) (held_in held.now count) next) }
{
    match kid {
        Some(node) => Some(Opened { node, next }),
        None if next < count => Some(Opened {
            node: node_at(held, next),
            next: next + 1,
        }),
        None => None,
    }
}

// Nodes at hand that are done with: those of a subtree.
#[derive(Clone, Copy)]
pub struct Others {
    pub left: Option<Node>,
    pub right: Option<Node>,
    pub top: Option<Node>,
}

// A level up: the subtree at hand there, with the nodes that are done with, one by itself and those of a subtree. The fetched
// nodes from `next` on are not taken yet.
#[derive(Clone, Copy)]
pub struct Raised {
    pub sub: Sub,
    pub aside: Option<Node>,
    pub others: Others,
    pub next: usize,
}

fn no_others() -> Others
    ensures { list_of result ≡ [] }
{
    Others {
        left: None,
        right: None,
        top: None,
    }
}

// What is at hand in the subtree, where that stands on the other side of the place than the one asked about.
fn others_of(p: Step, b: Sub, left: bool) -> Others
    ensures { list_of result ≡ map.others_of (to_step p) (to_sub b) left }
{
    if left == p.left {
        return no_others();
    }
    Others {
        left: kid_of(true, b),
        right: kid_of(false, b),
        top: top_of(b),
    }
}

// The child on a side of the node that was passed, as a wanted node.
fn child_want(p: Step, left: bool, n: Node) -> Want
    ensures { to_want result ≡ map.beside (to_step p) left (child left (to_node n)) }
{
    beside(p, left, child_link(left, n))
}

// The inner child of that child.
fn inner_want(p: Step, left: bool, n: Node, c: Node) -> Want
    ensures { to_want result ≡ map.below (map.step_at (map.beside (to_step p) left (child left (to_node n))) (to_node c) (not left)) }
{
    below(step_at(child_want(p, left, n), c, !left))
}

// A rotation where the child on the tall side is at hand: single where that does not lean inward, else double, for which
// the inner child is opened.
fn turn_over(
    p: Step,
    left: bool,
    n: Node,
    c: Node,
    near: Sub,
    others: Others,
    held: &[u64; ROW],
    count: usize,
    next: usize,
) -> Result<Raised, Want>
    requires { HeldFrom 250 (held_in held.now count) next × (Low 253 (to_node n) × (Low 253 (to_node c) × LowSub 250 (to_sub near))) }
    ensures { RaisesIfHeld (turn_over (to_step p) left (to_node n) (to_node c) (to_sub near) (list_of others)) (held_in held.now count) next result }
{
    let outer = kid_of(left, near);
    let inner = kid_of(!left, near);
    if leans_out(left, c) {
        return Ok(Raised {
            sub: single(left, n, c, outer),
            aside: inner,
            others,
            next,
        });
    }
    let Some(o) = open_kid(inner, held, count, next) else {
        return Err(inner_want(p, left, n, c));
    };
    Ok(Raised {
        sub: double(left, n, c, o.node),
        aside: outer,
        others,
        next: o.next,
    })
}

// A rotation of a node that is too tall on a side: the child on that side is opened first.
fn turn(
    p: Step,
    left: bool,
    n: Node,
    near: Sub,
    others: Others,
    held: &[u64; ROW],
    count: usize,
    next: usize,
) -> Result<Raised, Want>
    requires { HeldFrom 250 (held_in held.now count) next × (Low 253 (to_node n) × LowSub 250 (to_sub near)) }
    ensures { RaisesIfHeld (map.turn (to_step p) left (to_node n) (to_sub near) (list_of others)) (held_in held.now count) next result }
{
    let Some(o) = open_kid(top_of(near), held, count, next) else {
        return Err(child_want(p, left, n));
    };
    turn_over(p, left, n, o.node, near, others, held, count, o.next)
}

// No rotation: the node that was passed takes the subtree in, and the children at hand there are done with.
pub fn rest(p: Step, b: Sub, next: usize) -> Raised
    requires { LowSub 250 (to_sub b) }
    ensures { (built_of result ≡ map.rest (to_step p) (to_sub b)) × (result.next ≡ next) }
{
    Raised {
        sub: seated(p.left, place(p, b), top_of(b), None),
        aside: None,
        others: Others {
            left: kid_of(true, b),
            right: kid_of(false, b),
            top: None,
        },
        next,
    }
}

// One level up, unless a node is missing.
pub fn raise(p: Step, b: Sub, held: &[u64; ROW], count: usize, next: usize) -> Result<Raised, Want>
    requires { HeldFrom 250 (held_in held.now count) next × (Low 250 (to_node p.node) × LowSub 250 (to_sub b)) }
    ensures { RaisesIfHeld (map.raise (to_step p) (to_sub b)) (held_in held.now count) next result }
{
    let n = place(p, b);
    if is_tall(true, n) {
        let near = near_on(p, b, true);
        let others = others_of(p, b, true);
        return turn(p, true, n, near, others, held, count, next);
    }
    if is_tall(false, n) {
        let near = near_on(p, b, false);
        let others = others_of(p, b, false);
        return turn(p, false, n, near, others, held, count, next);
    }
    Ok(rest(p, b, next))
}

// One level up, with rotations or without.
pub fn raise_or_rest(
    rotating: bool,
    p: Step,
    b: Sub,
    held: &[u64; ROW],
    count: usize,
    next: usize,
) -> Result<Raised, Want>
    requires { HeldFrom 250 (held_in held.now count) next × (Low 250 (to_node p.node) × LowSub 250 (to_sub b)) }
    ensures { RaisesIfHeld (level rotating (to_step p) (to_sub b)) (held_in held.now count) next result }
{
    if rotating {
        raise(p, b, held, count, next)
    } else {
        Ok(rest(p, b, next))
    }
}
