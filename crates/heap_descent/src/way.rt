// The way from the root to a position, whose turns are the digits of its number, and the node that is wanted on it next.
ghost use Rattle.std.specs.Prelude.{◌≡◌, ◌≤◌};
ghost use Rattle.method_spec.specs.Heap as heap;
ghost use Rattle.method_spec.specs.Prog as prog;
ghost use Rattle.leaf_spec.specs.Convert.{to_link};
ghost use Rattle.operation_spec.specs.Method.{to_want};
ghost use Rattle.node_rows.specs.Held.{held_in};
ghost use Rattle.heap_descent.specs.Way.{Leads, turn_at, want_at};

use super::nodes::beneath;
use node_rows::{ROW, node_at};
use operation_spec::Want;
use operations::start;
use slot_spec::Link;

// The way to a position, and how many turns it has.
#[derive(Clone, Copy)]
pub struct Way {
    pub position: u16,
    pub depth: usize,
}

// A turn for each binary digit of the position but the first.
pub fn way_to(position: u16) -> Way
    ensures { (result.position ≡ position) × Leads result }
{
    let zeros = u64::from(position / 2).leading_zeros();
    Way {
        position,
        depth: (64 - zeros) as usize,
    }
}

// Whether the way goes on to the left at a level, counted from the root: by a digit of the position. Beyond its end it does.
pub fn goes_left(way: Way, level: usize) -> bool
    requires { Leads way }
    ensures { result ≡ turn_at (heap.way_to way.position) level }
{
    if level >= way.depth {
        return true;
    }
    let digit = way.depth - 1 - level;
    (way.position >> digit) % 2 == 0
}

// The node that is wanted next on the way, whose first nodes are held.
pub fn next_on(way: Way, root: Link, held: &[u64; ROW], count: usize) -> Want
    requires { Leads way × (count ≤ way.depth) }
    ensures { to_want result ≡ want_at (held_in held.now count) (prog.start (to_link root)) (heap.way_to way.position) count }
{
    if count == 0 {
        return start(root);
    }
    let last = count - 1;
    beneath(node_at(held, last), goes_left(way, last))
}
