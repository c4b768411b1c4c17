// What a call leaves after its fetch rounds: the store closed, or the step made and the put rounds run.
#![tactic(auto)]

ghost use Rattle.std.specs.Prelude.{◌≡◌, true, false, ◌≤◌, length};
ghost use Rattle.bucket_call_spec.specs.Call.{draw_of};
ghost use Rattle.leaf_spec.specs.Entries.{KeyLeft};
ghost use Rattle.operation_spec.specs.Method.{to_op, to_outcome, structure_asked};
ghost use Rattle.node_rows.specs.Row.{places, words as rowWords};
ghost use Rattle.node_rows.specs.Held.{held_in, nodes_of};
ghost use Rattle.short_outcomes.specs.OneFetch.{one_fetch};
ghost use Rattle.structures.specs.Operation.{LowHeld};
ghost use Rattle.want_rounds.specs.Wanting.{held_by, LongEnough};
ghost use Rattle.call_spec.specs.Reply.{number_of};
ghost use Rattle.call_ending.specs.Ending.{Shuts, HeldRows, ShutAs, outcome_of, stepped_by, Finishes, FinishedAs, EndsPuts};

use call_spec::Refusal;
use idle_rounds::idle::Idle;
use node_rows::{FETCHES, ROW};
use operation_spec::{Answer, Full, Outcome};
use path_slots::PATH_SLOTS;
use put_rounds::put_rounds;
use replies::{cause_of, reply_after};
use round_close::mark_of;
use slot_spec::{Ahead, Link};
use stash::join::join_nodes;
use structures::{ahead_after, step};
use tag_moves::move_tags;
use want_rounds::{Fetched, Job};

pub mod short;

// What a call that made its rounds leaves beside the row of the waiting nodes: the mark, the entries, the root link, what is known
// ahead, how many nodes wait, the reply, how many leaves were revealed, and the largest count at a round's close.
#[derive(Clone, Copy)]
pub struct Ran {
    pub mark: u8,
    pub entries: u16,
    pub root: Link,
    pub ahead: Ahead,
    pub waiting: usize,
    pub reply: Result<Answer, Refusal>,
    pub leaves: usize,
    pub peak: usize,
}

// What is left of a store that a fetch round closed for that cause, with that root link and so many nodes waiting. What is known ahead
// is as before the call.
pub fn closed(job: Job, f: Fetched, cause: Refusal, root: Link, waiting: usize) -> Ran
    ensures { result ≡ record { mark = number_of cause; entries = job.entries; root = root; ahead = job.spares.ahead; waiting = waiting; reply = Err cause; leaves = f.leaves; peak = f.peak } }
{
    Ran {
        mark: cause as u8,
        entries: job.entries,
        root,
        ahead: job.spares.ahead,
        waiting,
        reply: Err(cause),
        leaves: f.leaves,
        peak: f.peak,
    }
}

// A fetch round closed the store for that cause: the held nodes join those waiting, as they were fetched, with only tags moved.
pub fn shut(
    job: Job,
    f: Fetched,
    cause: Refusal,
    w: &mut [u8],
    held: &mut [u64; ROW],
    froms: &[u64; FETCHES],
) -> Ran
    requires { Shuts f w.old × HeldRows f held.old froms.now }
    ensures { ShutAs job f cause (held_by (held_in held.old f.count) froms.now) w.old w.new result }
{
    let root = move_tags(held, f.count, froms, job.root);
    let waiting = join_nodes(w, f.waiting, held, f.count);
    closed(job, f, cause, root, waiting)
}

// What is left by a call whose step came to that root link, those entries and that answer, after its put rounds; the fetch rounds had
// that peak. It is small, and the put rounds are called beside it, so that the compiler takes it into both of its callers.
pub fn finished(
    job: Job,
    peak: usize,
    root: Link,
    entries: u16,
    answer: Result<Answer, Full>,
    puts: Idle,
) -> Ran
    requires { KeyLeft (to_op job.op) job.spares.ahead.key × ((job.rounds ≤ 33) × (puts.shown ≤ job.rounds)) }
    ensures { EndsPuts job peak root entries answer puts result }
{
    let ahead = ahead_after(job.op, job.limit, job.entries, job.spares);
    Ran {
        mark: mark_of(puts.fault),
        entries,
        root,
        ahead,
        waiting: puts.waiting,
        reply: reply_after(cause_of(puts.fault), answer),
        leaves: job.rounds + puts.shown,
        peak: peak.max(puts.peak),
    }
}

// The step of a call of a map or a heap.
fn step_of(job: Job, held: &[u64; ROW], count: usize, made: &mut [u64; ROW]) -> Outcome
    requires { LowHeld job.root held.now count × ((length made.old ≡ rowWords) × (one_fetch (structure_asked job.op) ≡ false)) }
    ensures { (to_outcome result (nodes_of (held_in made.new result.made)) ≡ outcome_of job (nodes_of (held_in held.now count))) × ((result.made ≤ places) × (length made.new ≡ rowWords)) }
{
    step(
        job.op,
        job.limit,
        job.entries,
        job.root,
        job.spares,
        held,
        count,
        made,
    )
}

// All fetch rounds went on: the step, and the put rounds.
pub fn finish(
    job: Job,
    f: Fetched,
    w: &mut [u8],
    tree: &mut [u8],
    held: &[u64; ROW],
    made: &mut [u64; ROW],
    tape: &[u16],
    trace: &mut [u16],
    from: &mut [u32; PATH_SLOTS],
) -> Ran
    requires { Finishes job f (nodes_of (held_in held.now f.count)) w.old tree.old × ((LowHeld job.root held.now f.count × ((length made.old ≡ rowWords) × (one_fetch (structure_asked job.op) ≡ false))) × LongEnough job tape.now trace.old) }
    ensures { FinishedAs job (draw_of job.size tape.now) f.peak (outcome_of job (nodes_of (held_in held.now f.count))) (stepped_by job (nodes_of (held_in held.now f.count)) f w.old tree.old trace.old) trace.old w.new tree.new trace.new result }
{
    let o = step_of(job, held, f.count, made);
    let m = join_nodes(w, f.waiting, made, o.made);
    let puts = put_rounds(
        w, m, tree, job.size, job.rounds, job.puts, tape, trace, from,
    );
    finished(job, f.peak, o.root, o.entries, o.answer, puts)
}
