// One round of a call over the lent tree and the row of waiting slots: one that wants none, and one that wants a node.
#![tactic(auto)]

ghost use Rattle.std.specs.Prelude.{◌≡◌, ℕ, Bool};
ghost use Rattle.list_spec.specs.Ascending.{ascending};
ghost use Rattle.slot_spec.specs.declared.Node.{Node as SlotNode};
ghost use Rattle.round_close.specs.declared.Fault.TheVariants.{Damage};
ghost use Rattle.stash_laws.specs.Waiting.{Holds};
ghost use Rattle.one_round.specs.OneRound.{keys_waiting, RoundReady, Idled, Wanted, test_of};

use eviction::settle;
use operation_spec::Want;
use path_reader::{Wish, look, undo};
use path_slots::PATH_SLOTS;
use round_close::{Close, Fault, close_of};
use slot_fields::key_of;
use slot_row::get;
use slot_spec::Node;

// How a round that wants none ended: the fault, if it closed the store, how many nodes wait then, and how many wait and are held at its
// close, 0 with damage.
#[derive(Clone, Copy)]
pub struct Rounded {
    pub fault: Option<Fault>,
    pub waiting: usize,
    pub count: usize,
}

// How a round that wants a node ended; and the node as it was found, if it was taken out.
#[derive(Clone, Copy)]
pub struct Took {
    pub fault: Option<Fault>,
    pub waiting: usize,
    pub count: usize,
    pub node: Option<Node>,
}

// A round of a leaf that wants none. The n waiting nodes are the first slots of w; `held` are the keys of the held nodes; `from` is
// scratch space. Where there is damage all is as at the round's start.
pub fn idle_round(
    w: &mut [u8],
    n: usize,
    tree: &mut [u8],
    size: usize,
    leaf: usize,
    held: &[u32],
    from: &mut [u32; PATH_SLOTS],
) -> Rounded
    requires { RoundReady size leaf n w.old tree.old held.now }
    ensures { Idled size leaf n w.old tree.old held.now w.new tree.new result }
{
    let Ok(r) = look(w, n, tree, size, leaf, None, held, from) else {
        return Rounded {
            fault: Some(Fault::Damage),
            waiting: n,
            count: 0,
        };
    };
    let waiting = settle(w, r.count, None, tree, size, leaf, &from[..r.full]);
    let Close { count, fault } = close_of(waiting, held.len());
    Rounded {
        fault,
        waiting,
        count,
    }
}

// A round that found damage, with so many nodes waiting.
fn damaged(waiting: usize) -> Took
    ensures { result ≡ record { fault = Some Damage; waiting = waiting; count = 0; node = None } }
{
    Took {
        fault: Some(Fault::Damage),
        waiting,
        count: 0,
        node: None,
    }
}

// A round that wants a node: its leaf is the tag in the link that leads to it. Where the node fails the test, as with any damage, all is
// as at the round's start. The test is that of a structure.
pub fn want_round<F: FnOnce(Node) -> bool>(
    test: F,
    want: Want,
    w: &mut [u8],
    n: usize,
    tree: &mut [u8],
    size: usize,
    held: &[u32],
    from: &mut [u32; PATH_SLOTS],
) -> Took
    requires ready { RoundReady size want.link.tag n w.old tree.old held.now }
    requires asked { F.IsAlwaysCallable test }
    ensures { (structure entries : ℕ) → ((node : SlotNode) (r : Bool) → F.post test node r → r ≡ test_of structure entries want node) → Wanted structure entries size n want w.old tree.old held.now w.new tree.new result }
{
    let link = want.link;
    let leaf = usize::from(link.tag);
    let wish = Wish {
        key: link.key,
        tag: link.tag,
    };
    let Ok(r) = look(w, n, tree, size, leaf, Some(wish), held, from) else {
        return damaged(n);
    };
    if !test(r.node) {
        undo(w, r.count, tree, &from[..r.full]);
        return damaged(n);
    }
    let waiting = settle(w, r.count, Some(r.at), tree, size, leaf, &from[..r.full]);
    let Close { count, fault } = close_of(waiting, held.len() + 1);
    Took {
        fault,
        waiting,
        count,
        node: Some(r.node),
    }
}

// Whether the keys of the n waiting nodes ascend.
pub fn ascends(w: &[u8], n: usize) -> bool
    requires { Holds n w.now }
    ensures { result ≡ ascending (keys_waiting n w.now) }
{
    for i in 1..n {
        let key = key_of(get(w, i - 1));
        let next = key_of(get(w, i));
        if next <= key {
            return false;
        }
    }
    true
}
