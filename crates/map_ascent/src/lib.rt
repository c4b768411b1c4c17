// The way up from the place of a change to the root. Nodes that are done with go into the first places of a lent row.
#![tactic(auto)]

ghost use Rattle.std.specs.Prelude.{◌≡◌, ◌++◌, ◌+◌, ◌≤◌, length};
ghost use Rattle.method_spec.specs.Map.{listed};
ghost use Rattle.node_rows.specs.Row.{places, words};
ghost use Rattle.node_rows.specs.Held.{held_in, Lists};
ghost use Rattle.map_nodes.specs.Method.{to_kid};
ghost use Rattle.rotations.specs.Raise.{list_of};
ghost use Rattle.map_descent.specs.Walk.{Walks};
ghost use Rattle.map_changes.specs.Bottom.{BottomReady};
ghost use Rattle.map_ascent.specs.Climb.{ClimbsIfHeld};

use map_changes::Bottom;
use map_descent::path_steps::step_to;
use map_nodes::Sub;
use node_rows::{ROW, set_node};
use operation_spec::Want;
use rotations::raise::{Others, raise_or_rest};
use slot_spec::{Link, Node};

// One more node in a row's next place, if it is at hand: how many there are then.
pub fn list_kid(made: &mut [u64; ROW], count: usize, kid: Option<Node>) -> usize
    requires { (length made.old ≡ words) × (count + length (listed (to_kid kid)) ≤ places) }
    ensures { Lists made.old count (listed (to_kid kid)) made.new result }
{
    match kid {
        None => count,
        Some(n) => {
            set_node(made, count, n);
            count + 1
        }
    }
}

// What a level of the climb is done with.
fn list_level(made: &mut [u64; ROW], count: usize, aside: Option<Node>, others: Others) -> usize
    requires { (length made.old ≡ words) × (count + length (listed (to_kid aside) ++ list_of others) ≤ places) }
    ensures { Lists made.old count (listed (to_kid aside) ++ list_of others) made.new result }
{
    let first = list_kid(made, count, aside);
    let second = list_kid(made, first, others.left);
    let third = list_kid(made, second, others.right);
    list_kid(made, third, others.top)
}

// A climb: the subtree at hand at its end, how many nodes are done with, and how many fetched nodes are taken.
#[derive(Clone, Copy)]
pub struct Climbed {
    pub sub: Sub,
    pub count: usize,
    pub next: usize,
}

// The climb over the path to the bottom, its lowest step first, unless a node is missing.
pub fn climb(
    b: Bottom,
    key: u32,
    root: Link,
    held: &[u64; ROW],
    count: usize,
    made: &mut [u64; ROW],
) -> Result<Climbed, Want>
    requires { Walks root (held_in held.now count) × BottomReady key root (held_in held.now count) b }
    ensures { ClimbsIfHeld key root (held_in held.now count) b made.new result }
{
    let mut done = 0;
    let mut sub = b.sub;
    let mut next = b.at;
    for i in (0..b.length).rev() {
        let p = step_to(key, root, held, count, b.found, b.length, i);
        let r = raise_or_rest(b.rotating, p, sub, held, count, next)?;
        done = list_level(made, done, r.aside, r.others);
        sub = r.sub;
        next = r.next;
    }
    Ok(Climbed {
        sub,
        count: done,
        next,
    })
}
