// The walk down by key over the fetched nodes.
ghost use Rattle.std.specs.Prelude.{◌≡◌, ◌<◌, false};
ghost use Rattle.method_spec.specs.Prog as prog;
ghost use Rattle.method_spec.specs.Map as map;
ghost use Rattle.leaf_spec.specs.Convert.{to_link};
ghost use Rattle.operation_spec.specs.Method.{to_want};
ghost use Rattle.node_rows.specs.Held.{held_in, held_at, HeldFrom};
ghost use Rattle.map_descent.specs.Walk.{Walks, Descends, Lowers};

use map_nodes::wants::{below, step_at};
use node_rows::{ROW, node_at};
use operation_spec::Want;
use operations::start;
use slot_spec::{Link, Node};

// How a walk down ends: the node that is wanted there, how many nodes it passed, and that node, if the key is there.
#[derive(Clone, Copy)]
pub struct Descent {
    pub want: Want,
    pub depth: usize,
    pub node: Option<Node>,
}

// Down by key, unless a node is missing. Heights bound the walk: it passes no more nodes than the root link's height says.
pub fn descend(key: u32, root: Link, held: &[u64; ROW], count: usize) -> Result<Descent, Want>
    requires { Walks root (held_in held.now count) }
    ensures { Descends key (held_in held.now count) (prog.start (to_link root)) root.height result }
{
    let mut want = start(root);
    let fuel = usize::from(root.height);
    for i in 0..fuel {
        if want.link.height == 0 {
            return Ok(Descent {
                want,
                depth: i,
                node: None,
            });
        }
        if i == count {
            return Err(want);
        }
        let n = node_at(held, i);
        if key == n.key {
            return Ok(Descent {
                want,
                depth: i,
                node: Some(n),
            });
        }
        want = below(step_at(want, n, key < n.key));
    }
    Ok(Descent {
        want,
        depth: fuel,
        node: None,
    })
}

// The number of the next larger key's node below the fetched node `found`, at which `want` was wanted: once to the right,
// then to the left as far as there are nodes; or the node that is missing.
pub fn next_larger(want: Want, found: usize, held: &[u64; ROW], count: usize) -> Result<usize, Want>
    requires { HeldFrom 100 (held_in held.now count) 0 × (found < count) }
    ensures { Lowers (held_in held.now count) found (map.below (map.step_at (to_want want) (held_at (held_in held.now count) found) false)) (held_at (held_in held.now count) found).right.height result }
{
    let n = node_at(held, found);
    let mut next = below(step_at(want, n, false));
    let lowest = found + usize::from(n.right.height);
    for i in found + 1..count {
        let m = node_at(held, i);
        if i > lowest || m.left.height == 0 {
            return Ok(i);
        }
        next = below(step_at(next, m, true));
    }
    Err(next)
}
