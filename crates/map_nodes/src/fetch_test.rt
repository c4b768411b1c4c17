// What a fetched node of the map is asked.
ghost use Rattle.std.specs.Prelude.{◌≡◌};
ghost use Rattle.method_spec.specs.Map as map;
ghost use Rattle.leaf_spec.specs.Convert.{to_node};
ghost use Rattle.operation_spec.specs.Method.{to_bound, to_want};

use map_balance::is_tall;
use operation_spec::Want;
use slot_spec::Node;

// A key strictly between the nearest keys that the walk passed.
fn is_between(low: Option<u32>, high: Option<u32>, key: u32) -> bool
    ensures { result ≡ map.between (to_bound low) (to_bound high) key }
{
    match (low, high) {
        (None, None) => true,
        (Some(a), None) => a < key,
        (None, Some(b)) => key < b,
        (Some(a), Some(b)) => a < key && key < b,
    }
}

// The map's fetch tests: the side heights differ by at most one, the height is the link's, and the key lies between the
// keys that the walk passed.
pub fn map_test(want: Want, n: Node) -> bool
    ensures { result ≡ map.map_test (to_want want) (to_node n) }
{
    if is_tall(true, n) || is_tall(false, n) {
        return false;
    }
    let height = u16::from(n.left.height.max(n.right.height)) + 1;
    height == u16::from(want.link.height) && is_between(want.low, want.high, n.key)
}
