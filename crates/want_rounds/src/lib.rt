// The fetch rounds: those that want a node, one after the other, and then those that are left.
#![tactic(auto)]

ghost use Rattle.std.specs.Prelude.{◌≡◌};
ghost use Rattle.bucket_call_spec.specs.Call.{draw_of};
ghost use Rattle.node_rows.specs.Held.{held_in};
ghost use Rattle.want_rounds.specs.Wanting.{CanFetch, Walks};

use fetch_tests::passes;
use held_keys::MOST_HELD;
use idle_rounds::idle::draw_at;
use node_rows::{FETCHES, ROW, set_node, word_of};
use one_round::want_round;
use operation_spec::{Op, Spares};
use path_slots::PATH_SLOTS;
use round_close::Fault;
use slot_spec::{Link, Node};
use structures::wanted;

// What the rounds of a call are for: the operation, the store's structure and size, how many fetch rounds there are, the capacity,
// the entries and the root link, what a new node's tags come from, and the draw of the first put round.
#[derive(Clone, Copy)]
pub struct Job {
    pub op: Op,
    pub structure: u8,
    pub size: usize,
    pub rounds: usize,
    pub limit: u16,
    pub entries: u16,
    pub root: Link,
    pub spares: Spares,
    pub puts: usize,
}

// What the fetch rounds came to: how many nodes are held and how many wait, the fault, if one closed the store, how many leaves
// were revealed, and the largest count at the close of a round.
#[derive(Clone, Copy)]
pub struct Fetched {
    pub count: usize,
    pub waiting: usize,
    pub fault: Option<Fault>,
    pub leaves: usize,
    pub peak: usize,
}

// What the one fetch round of a stack or a queue came to, and the node that is held under the round's draw, if one is. No Option says so
// again: the count is 1 then, and what ends the call asks no more than the count.
#[derive(Clone, Copy)]
pub struct FetchedOne {
    pub fetched: Fetched,
    pub node: Node,
}

pub fn came_to(
    count: usize,
    waiting: usize,
    fault: Option<Fault>,
    leaves: usize,
    peak: usize,
) -> Fetched
    ensures { result ≡ record { count = count; waiting = waiting; fault = fault; leaves = leaves; peak = peak } }
{
    Fetched {
        count,
        waiting,
        fault,
        leaves,
        peak,
    }
}

// The fetch rounds that want a node, one after the other, until none is wanted any more. Each reveals the tag in the link to the
// wanted node, which is held from then on under the round's draw. `keys` has the keys of the held nodes, `froms` where the links to
// them stood; `made` and `from` are scratch space.
pub fn want_rounds(
    job: Job,
    w: &mut [u8],
    n: usize,
    tree: &mut [u8],
    held: &mut [u64; ROW],
    froms: &mut [u64; FETCHES],
    made: &mut [u64; ROW],
    keys: &mut [u32; MOST_HELD],
    tape: &[u16],
    trace: &mut [u16],
    from: &mut [u32; PATH_SLOTS],
) -> Fetched
    requires { CanFetch job n w.old tree.old tape.now trace.old }
    ensures { Walks job (draw_of job.size tape.now) n w.old tree.old trace.old (held_in held.new result.count) froms.new w.new tree.new keys.new trace.new result }
{
    let mut waiting = n;
    let mut peak = 0;
    for i in 0..job.rounds {
        let next = wanted(
            job.op,
            job.limit,
            job.entries,
            job.root,
            job.spares,
            held,
            i,
            made,
        );
        let Some(want) = next else {
            return came_to(i, waiting, None, i, peak);
        };
        trace[i] = want.link.tag;
        let test = |node| passes(job.structure, job.entries, want, node);
        let r = want_round(test, want, w, waiting, tree, job.size, &keys[..i], from);
        waiting = r.waiting;
        peak = peak.max(r.count);
        let Some(mut node) = r.node else {
            return came_to(i, waiting, r.fault, i + 1, peak);
        };
        node.tag = draw_at(tape, i, job.size) as u16;
        set_node(held, i, node);
        froms[i] = word_of(want.from);
        keys[i] = node.key;
        if r.fault.is_some() {
            return came_to(i + 1, waiting, r.fault, i + 1, peak);
        }
    }
    came_to(job.rounds, waiting, None, job.rounds, peak)
}
