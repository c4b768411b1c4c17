// The waiting nodes of a state as slots in a lent row: other nodes join them, and a place of a state is loaded into the row and saved
// from it.
#![tactic(auto)]

ghost use Rattle.std.specs.Prelude.{◌≡◌};
ghost use Rattle.leaf_spec.specs.Convert.{to_node};
ghost use Rattle.stash_laws.specs.Waiting.{words_for, InWidths};

use slot_fields::slot_of;
use slot_spec::{Node, Slot};

pub mod join;
pub mod places;

// The words of a node, whose numbers are within their widths.
pub fn words_of(n: Node) -> Slot
    ensures { InWidths (to_node n) × (result ≡ words_for (to_node n)) }
{
    slot_of(n)
}
