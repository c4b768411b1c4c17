// The places of a state for its waiting nodes: an unused one, and what is asked of one.
#![tactic(auto)]

ghost use Rattle.std.specs.Prelude.{◌≡◌, ◌≤◌};
ghost use Rattle.state_spec.specs.Fit.{no_place, zero_place, place_good};

use slots::well_formed;
use state_spec::Place;

// A place that holds no node.
pub fn no_place() -> Place
    ensures { result ≡ no_place }
{
    Place::default()
}

// A place that is all zero: one test of its numbers together.
pub fn zero_place(p: Place) -> bool
    ensures { result ≡ zero_place p }
{
    if p.full {
        return false;
    }
    // Kept for speed: a call asks this of some hundred places, and `p == Place::default()` takes half as long again.
    let own = p.node.key as u64 | p.node.value | p.node.tag as u64;
    let left = p.node.left.height as u64 | p.node.left.key as u64 | p.node.left.tag as u64;
    let right = p.node.right.height as u64 | p.node.right.key as u64 | p.node.right.tag as u64;
    own | left | right == 0
}

// A place that holds a node which no slot is bad for.
pub fn place_good(size: usize, p: Place) -> bool
    requires { size ≤ 16 }
    ensures { result ≡ place_good size p }
{
    p.full && well_formed(size, p.node)
}
