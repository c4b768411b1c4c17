// For the length of a call the nodes that it has fetched, and those that its step makes, stand in rows of lent words, a slot's
// words to a node; a second row says where the link to each fetched node stood.
#![tactic(auto)]

ghost use Rattle.std.specs.Prelude.{◌≡◌, ◌<◌, length, get_or, set};
ghost use Rattle.slot_spec.specs.Slot.{no_node};
ghost use Rattle.slot_spec.specs.Row.{nodes_from};
ghost use Rattle.operation_spec.specs.Method.{to_from};
ghost use Rattle.node_rows.specs.Row.{places, words, fetches, from_in};

use held_keys::MOST_HELD;
use operation_spec::From;
use slot_fields::{node_of, slot_of};
use slot_spec::{Node, Slot};

// The most fetch rounds of a call, each of which may bring a node.
pub const FETCHES: usize = MOST_HELD;

// The most nodes that a step makes of them: those, and a new one. A row has as many places.
pub const NODES: usize = 34;

const NODE_WORDS: usize = 4;

pub const ROW: usize = NODE_WORDS * NODES;

// The node in a place of a row.
pub fn node_at(row: &[u64; ROW], i: usize) -> Node
    requires { i < places }
    ensures { result ≡ get_or (nodes_from row.now) i no_node }
{
    let j = NODE_WORDS * i;
    node_of(Slot {
        a: row[j],
        b: row[j + 1],
        c: row[j + 2],
        d: row[j + 3],
    })
}

// A node in a place of a row, in place of what was there.
pub fn set_node(row: &mut [u64; ROW], i: usize, n: Node)
    requires { i < places }
    ensures { (nodes_from row.new ≡ set (nodes_from row.old) i n) × (length row.new ≡ words) }
{
    let x = slot_of(n);
    let j = NODE_WORDS * i;
    row[j] = x.a;
    row[j + 1] = x.b;
    row[j + 2] = x.c;
    row[j + 3] = x.d;
}

// Where the link to the fetched node i stood.
pub fn from_at(froms: &[u64; FETCHES], i: usize) -> From
    requires { i < fetches }
    ensures { to_from result ≡ from_in (get_or froms.now i 0) }
{
    let x = froms[i];
    if x == 0 {
        return From::Root;
    }
    From::Side((x / 2 % 4294967296) as u32, x % 2 == 1)
}

// The word for where a link stands: 0 for the root link, else twice the key, with 1 for the left side, and beyond a key's numbers.
pub fn word_of(from: From) -> u64
    ensures { from_in result ≡ to_from from }
{
    match from {
        From::Root => 0,
        From::Side(key, left) => {
            let right = 8589934592 + 2 * u64::from(key);
            if left { right + 1 } else { right }
        }
    }
}
