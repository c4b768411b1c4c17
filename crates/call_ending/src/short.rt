// The end of a call of a stack or a queue, whose one node is held by value.
ghost use Rattle.std.specs.Prelude.{◌≡◌, true, [], ◌∷◌, ◌<◌, length, option_to_list};
ghost use Rattle.std.proofs.Math.Option.{none};
ghost use Rattle.method_spec.specs.Prog.{after};
ghost use Rattle.bucket_call_spec.specs.Call.{draw_of};
ghost use Rattle.operation_spec.specs.Method.{structure_asked, wanted_in};
ghost use Rattle.word_round_laws.specs.SlotRow.{places};
ghost use Rattle.stash_laws.specs.Waiting.{Holds};
ghost use Rattle.stash.specs.Stash.{NodesJoined};
ghost use Rattle.short_outcomes.specs.OneFetch.{one_fetch};
ghost use Rattle.want_rounds.specs.Wanting.{held_one, nodes_held, program_of, LongEnough};
ghost use Rattle.call_ending.specs.Ending.{Shuts, ShutAs, outcome_of, stepped_by, Finishes, FinishedAs};

use super::{Ran, closed, finished};
use call_spec::Refusal;
use path_slots::PATH_SLOTS;
use put_rounds::put_rounds;
use short_outcomes::OneMade;
use short_steps::short_step;
use slot_row::insert_slot;
use slot_spec::Node;
use stash::words_of;
use want_rounds::{FetchedOne, Job};

// A node joins the first n in key order; how many wait then.
fn join_node(w: &mut [u8], n: usize, node: Node) -> usize
    requires { Holds n w.old × (n < places) }
    ensures { NodesJoined n (node ∷ []) 1 w.old w.new result }
{
    insert_slot(w, n, words_of(node));
    n + 1
}

// The node that a step made, if it made one, joins the first n.
fn join_made(w: &mut [u8], n: usize, o: OneMade) -> usize
    requires { Holds n w.old × (n < places) }
    ensures { NodesJoined n (option_to_list o.node) (length (option_to_list o.node)) w.old w.new result }
{
    match o.node {
        None => n,
        Some(node) => join_node(w, n, node),
    }
}

// The fetch round closed the store for that cause: the node, if it is held, joins those waiting, and the root link has its new tag.
pub fn shut_short(job: Job, r: FetchedOne, cause: Refusal, w: &mut [u8]) -> Ran
    requires { Shuts r.fetched w.old }
    ensures { ShutAs job r.fetched cause (held_one r) w.old w.new result }
{
    let f = r.fetched;
    let mut root = job.root;
    if f.count == 0 {
        return closed(job, f, cause, root, f.waiting);
    }
    root.tag = r.node.tag;
    let waiting = join_node(w, f.waiting, r.node);
    closed(job, f, cause, root, waiting)
}

// The fetch round went on: the step, and the put rounds.
pub fn finish_short(
    job: Job,
    r: FetchedOne,
    w: &mut [u8],
    tree: &mut [u8],
    tape: &[u16],
    trace: &mut [u16],
    from: &mut [u32; PATH_SLOTS],
) -> Ran
    requires { Finishes job r.fetched (nodes_held (held_one r)) w.old tree.old × (((one_fetch (structure_asked job.op) ≡ true) × (wanted_in (after (program_of job) (nodes_held (held_one r))) ≡ none)) × LongEnough job tape.now trace.old) }
    ensures { FinishedAs job (draw_of job.size tape.now) r.fetched.peak (outcome_of job (nodes_held (held_one r))) (stepped_by job (nodes_held (held_one r)) r.fetched w.old tree.old trace.old) trace.old w.new tree.new trace.new result }
{
    let f = r.fetched;
    let o = short_step(job.op, job.limit, job.entries, job.root, job.spares, r.node);
    let m = join_made(w, f.waiting, o);
    let puts = put_rounds(
        w, m, tree, job.size, job.rounds, job.puts, tape, trace, from,
    );
    finished(job, f.peak, o.root, o.entries, o.answer, puts)
}
