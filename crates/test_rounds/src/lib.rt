// A round of a bucket store by itself, with no call around it and nothing held, and a node that comes to wait: for programs that
// show rounds or time them.
#![tactic(auto)]

ghost use Rattle.std.specs.Prelude.{◌≡◌, true, ◌+◌, ◌^◌, ◌<◌, length};
ghost use Rattle.slot_spec.specs.Slot.{slot_of};
ghost use Rattle.test_rounds.specs.Single.{Waits, Resting, Waiting, Rounded, Rests};

use eviction::settle;
use path_reader::{Wish, look};
use path_slots::PATH_SLOTS;
use round_close::{Fault, LIMIT, fault_at_close};
use slot_fields::{slot_of, tag_of};
use slot_row::join_slot;
use slot_spec::Node;
use tree_paths::leaves;

// How a round closed: the fault, if there was one; how many nodes wait then; and the node that was taken out, if one was.
#[derive(Clone, Copy)]
pub struct Closed {
    pub fault: Option<Fault>,
    pub waiting: usize,
    pub node: Option<Node>,
}

// A round of a leaf. The n waiting nodes are the first slots of w; `from` is scratch space.
pub fn round(
    w: &mut [u8],
    n: usize,
    tree: &mut [u8],
    size: usize,
    leaf: usize,
    wish: Option<Wish>,
    from: &mut [u32; PATH_SLOTS],
) -> Closed
    requires { Resting size n w.old tree.old × (leaf < 2 ^ size) }
    ensures { Rounded size leaf wish n w.old tree.old w.new tree.new result }
{
    let Ok(r) = look(w, n, tree, size, leaf, wish, &[], from) else {
        return Closed {
            fault: Some(Fault::Damage),
            waiting: n,
            node: None,
        };
    };
    let out = wish.and(Some(r.at));
    let waiting = settle(w, r.count, out, tree, size, leaf, &from[..r.full]);
    Closed {
        fault: fault_at_close(waiting, usize::from(wish.is_some())),
        waiting,
        node: wish.and(Some(r.node)),
    }
}

// A node comes to wait with the n that do. Not so if more than 64 wait, if its tag is no leaf, or if its key waits already.
pub fn wait(w: &mut [u8], n: usize, size: usize, node: Node) -> bool
    requires { Waits size n w.old × (size < 17) }
    ensures { Waiting size n (slot_of node) w.old w.new result }
{
    let x = slot_of(node);
    if n > LIMIT {
        return false;
    }
    usize::from(tag_of(x)) < leaves(size) && join_slot(w, n, x)
}

// A node is taken out by a round of its leaf, and waits again under a new tag. Damage is that of the round; with an overflow too many
// nodes wait.
pub fn take_round(
    w: &mut [u8],
    n: usize,
    tree: &mut [u8],
    size: usize,
    wish: Wish,
    new_tag: u16,
    from: &mut [u32; PATH_SLOTS],
) -> Closed
    requires { Resting size n w.old tree.old × (wish.tag < 2 ^ size) }
    ensures { Rests size w.new tree.new result }
{
    let r = round(w, n, tree, size, usize::from(wish.tag), Some(wish), from);
    let Some(mut node) = r.node else {
        return r;
    };
    if r.fault.is_some() {
        return r;
    }
    node.tag = new_tag;
    if !wait(w, r.waiting, size, node) {
        return Closed {
            fault: Some(Fault::Overflow),
            waiting: r.waiting,
            node: Some(node),
        };
    }
    Closed {
        fault: None,
        waiting: r.waiting + 1,
        node: Some(node),
    }
}
