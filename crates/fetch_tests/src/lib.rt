// What a fetched node of a map or a heap is asked.
#![tactic(auto)]

ghost use Rattle.std.specs.Prelude.{◌≡◌, false};
ghost use Rattle.method_spec.specs.Call.{test};
ghost use Rattle.leaf_spec.specs.Convert.{to_node};
ghost use Rattle.operation_spec.specs.Method.{to_want};
ghost use Rattle.state_spec.specs.Ticket.{structure_of};
ghost use Rattle.short_outcomes.specs.OneFetch.{one_fetch};

use heap_descent::fetch_test::heap_test;
use map_nodes::fetch_test::map_test;
use operation_spec::Want;
use slot_spec::Node;

// The fetch test of a structure, 1 the map, else the heap, in a store with so many entries as the call starts.
pub fn passes(structure: u8, entries: u16, want: Want, n: Node) -> bool
    requires { one_fetch (structure_of structure) ≡ false }
    ensures { result ≡ test (structure_of structure) entries (to_want want) (to_node n) }
{
    if structure == 1 {
        return map_test(want, n);
    }
    heap_test(entries, want, n)
}
