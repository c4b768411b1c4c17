// The queue's operations as functions of the one node that a call fetches: whether it is wanted, the step, what is known ahead after it,
// and the fetch test.
#![tactic(auto)]

ghost use Rattle.std.specs.Prelude.{◌≡◌, [], ◌∷◌, suc, ◌<◌, ◌^◌, eqb};
ghost use Rattle.list_spec.specs.Choice.{pick};
ghost use Rattle.method_spec.specs.Node as method;
ghost use Rattle.method_spec.specs.Prog.{done, after};
ghost use Rattle.method_spec.specs.Queue as queue;
ghost use Rattle.method_spec.specs.Queue.{enqueue_prog, enqueue_ahead, dequeue_prog, dequeue_ahead, queue_test};
ghost use Rattle.leaf_spec.specs.Convert.{to_link, to_ahead, to_node};
ghost use Rattle.operation_spec.specs.Method.{to_want, to_wanted, wanted_in};
ghost use Rattle.short_outcomes.specs.OneFetch.{to_one_outcome};

use operation_spec::{Answer, Full, Spares, Want};
use operations::{link_one, one_less, start};
use short_outcomes::{OneMade, none_made};
use slot_spec::{Ahead, Link, Node};

// ---- in
// What is known ahead once a node is stored: the key after its own, and draw 2.
fn next_ahead(spares: Spares) -> Ahead
    requires { suc spares.ahead.key < 2 ^ 32 }
    ensures { to_ahead result ≡ queue.next_ahead spares.second (to_ahead spares.ahead) }
{
    Ahead {
        key: spares.ahead.key + 1,
        tag: spares.second,
    }
}

// A new node's tag: on an empty queue draw 1, else the one drawn ahead.
fn new_tag(spares: Spares, entries: u16) -> u16
    ensures { result ≡ pick (eqb entries 0) spares.first spares.ahead.tag }
{
    if entries == 0 {
        return spares.first;
    }
    spares.ahead.tag
}

// The new node: its left link leads to the one that comes next.
fn newest(value: u64, spares: Spares, entries: u16) -> Node
    requires { suc spares.ahead.key < 2 ^ 32 }
    ensures { to_node result ≡ queue.newest 0 value spares.first spares.second entries (to_ahead spares.ahead) }
{
    let next = next_ahead(spares);
    let left = Link {
        height: 1,
        key: next.key,
        tag: next.tag,
    };
    Node {
        key: spares.ahead.key,
        value,
        tag: new_tag(spares, entries),
        left,
        right: Link::default(),
    }
}

// The root link after an in: on an empty queue it leads to the new node.
fn root_after_in(entries: u16, root: Link, n: Node) -> Link
    ensures { to_link result ≡ pick (eqb entries 0) (method.link_one (to_node n)) (to_link root) }
{
    if entries == 0 { link_one(n) } else { root }
}

// An in fetches none. There is a key for the one that comes next.
pub fn enqueue(value: u64, spares: Spares, limit: u16, entries: u16, root: Link) -> OneMade
    requires { suc spares.ahead.key < 2 ^ 32 }
    ensures { done (to_one_outcome result) ≡ enqueue_prog 0 value spares.first spares.second entries limit (to_ahead spares.ahead) (to_link root) }
{
    if entries >= limit {
        return none_made(root, entries, Err(Full));
    }
    let n = newest(value, spares, entries);
    OneMade {
        node: Some(n),
        root: root_after_in(entries, root, n),
        entries: entries + 1,
        answer: Ok(Answer::Queued),
    }
}

// What is known ahead after an in: in a full queue, which stores no node, as it was.
pub fn enqueue_ahead(spares: Spares, limit: u16, entries: u16) -> Ahead
    requires { suc spares.ahead.key < 2 ^ 32 }
    ensures { to_ahead result ≡ enqueue_ahead spares.second entries limit (to_ahead spares.ahead) }
{
    if entries >= limit {
        return spares.ahead;
    }
    next_ahead(spares)
}

// ---- out
// An out wants the oldest.
pub fn dequeue_wanted(entries: u16, root: Link) -> Option<Want>
    ensures { to_wanted result ≡ wanted_in (dequeue_prog 0 entries (to_link root)) }
{
    if entries == 0 {
        return None;
    }
    Some(start(root))
}

// The root link after an out: the oldest's left link, and none with the last one gone.
fn root_after_out(entries: u16, left: Link) -> Link
    ensures { to_link result ≡ pick (eqb entries 1) (method.absent 0) (to_link left) }
{
    if entries == 1 { Link::default() } else { left }
}

// An out takes the oldest. An empty queue has none: whatever node is given, nothing is taken.
pub fn dequeue(entries: u16, root: Link, oldest: Node) -> OneMade
    ensures { done (to_one_outcome result) ≡ after (dequeue_prog 0 entries (to_link root)) (to_node oldest ∷ []) }
{
    if entries == 0 {
        return none_made(root, entries, Ok(Answer::Empty));
    }
    none_made(
        root_after_out(entries, oldest.left),
        one_less(entries),
        Ok(Answer::Dequeued(oldest.value)),
    )
}

// What is known ahead after an out: the tag is dropped when the queue empties, the next unused key stays.
pub fn dequeue_ahead(entries: u16, ahead: Ahead) -> Ahead
    ensures { to_ahead result ≡ dequeue_ahead 0 entries (to_ahead ahead) }
{
    if entries == 1 {
        return Ahead { tag: 0, ..ahead };
    }
    ahead
}

// ---- the fetch test
// A left link of height 1 with the next key, and no right link.
pub fn queue_test(want: Want, n: Node) -> bool
    ensures { result ≡ queue_test (to_want want) (to_node n) }
{
    if n.left.height != 1 {
        return false;
    }
    n.right.height == 0 && u64::from(n.left.key) == u64::from(n.key) + 1
}
