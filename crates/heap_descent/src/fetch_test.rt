// What a fetched node of the heap is asked.
ghost use Rattle.std.specs.Prelude.{◌≡◌};
ghost use Rattle.method_spec.specs.Heap.{heap_link_good, heap_test};
ghost use Rattle.leaf_spec.specs.Convert.{to_link, to_node};
ghost use Rattle.operation_spec.specs.Method.{to_want};

use operation_spec::Want;
use slot_spec::{Link, Node};

// The link to a position: of height 1 with that key, or absent beyond the entries.
fn link_good(entries: u16, position: u64, link: Link) -> bool
    ensures { result ≡ heap_link_good entries position (to_link link) }
{
    let end = u64::from(entries) + 1;
    if position < end {
        link.height == 1 && u64::from(link.key) == position
    } else {
        link.height == 0
    }
}

// The heap's fetch test: its links lead to the positions 2i and 2i + 1, as far as there are entries.
pub fn heap_test(entries: u16, want: Want, n: Node) -> bool
    ensures { result ≡ heap_test entries (to_want want) (to_node n) }
{
    let position = 2 * u64::from(n.key);
    link_good(entries, position, n.left) && link_good(entries, position + 1, n.right)
}
