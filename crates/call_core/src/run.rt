// The rounds and the step of a call whose checks were passed.
ghost use Rattle.std.specs.Prelude.{◌≡◌, true, false, ◌+◌, ◌≤◌, ◌<◌, length};
ghost use Rattle.operation_spec.specs.Method.{structure_asked};
ghost use Rattle.short_outcomes.specs.OneFetch.{one_fetch};
ghost use Rattle.call_core.specs.Run.{job_for, Runs, RanAs};

use call_draws::spare_of;
use call_ending::short::{finish_short, shut_short};
use call_ending::{Ran, finish, shut};
use fetch_rounds::fetch_rounds;
use fetch_rounds::short::short_fetch;
use fitness::Head;
use held_keys::MOST_HELD;
use idle_rounds::idle::draw_at;
use node_rows::{FETCHES, ROW};
use operation_spec::{Op, Spares};
use path_slots::PATH_SLOTS;
use replies::cause_of;
use tree_paths::leaves;
use want_rounds::Job;

// What the rounds of a call are for: a new node's tags come from the two draws after those of the fetch rounds, and from what is
// known ahead.
pub fn job_for(head: Head, op: Op, rounds: usize, tape: &[u16]) -> Job
    requires { (head.size ≤ 8) × ((rounds ≤ 33) × (rounds + 1 < length tape.now)) }
    ensures { result ≡ job_for head.structure head.size head.entries head.root head.ahead op rounds tape.now }
{
    let size = usize::from(head.size);
    Job {
        op,
        structure: head.structure,
        size,
        rounds,
        limit: (leaves(size) - 1) as u16,
        entries: head.entries,
        root: head.root,
        spares: Spares {
            first: draw_at(tape, rounds, size) as u16,
            second: draw_at(tape, rounds + 1, size) as u16,
            ahead: head.ahead,
        },
        puts: rounds + spare_of(head.structure),
    }
}

// The rounds and the step of a map or a heap, on a store whose n waiting nodes are in the row.
pub fn run(
    job: Job,
    w: &mut [u8],
    n: usize,
    tree: &mut [u8],
    tape: &[u16],
    trace: &mut [u16],
) -> Ran
    requires { Runs job n w.old tree.old tape.now trace.old × (one_fetch (structure_asked job.op) ≡ false) }
    ensures { RanAs job n w.old tree.old tape.now trace.old w.new tree.new trace.new result }
{
    let mut held = [0u64; ROW];
    let mut froms = [0u64; FETCHES];
    let mut made = [0u64; ROW];
    let mut keys = [0u32; MOST_HELD];
    let mut from = [0u32; PATH_SLOTS];
    let f = fetch_rounds(
        job, w, n, tree, &mut held, &mut froms, &mut made, &mut keys, tape, trace, &mut from,
    );
    if let Some(cause) = cause_of(f.fault) {
        return shut(job, f, cause, w, &mut held, &froms);
    }
    finish(job, f, w, tree, &held, &mut made, tape, trace, &mut from)
}

// The rounds and the step of a stack or a queue: its one node is held by value.
pub fn run_short(
    job: Job,
    w: &mut [u8],
    n: usize,
    tree: &mut [u8],
    tape: &[u16],
    trace: &mut [u16],
) -> Ran
    requires { Runs job n w.old tree.old tape.now trace.old × (one_fetch (structure_asked job.op) ≡ true) }
    ensures { RanAs job n w.old tree.old tape.now trace.old w.new tree.new trace.new result }
{
    let mut from = [0u32; PATH_SLOTS];
    let r = short_fetch(job, w, n, tree, tape, trace, &mut from);
    if let Some(cause) = cause_of(r.fetched.fault) {
        return shut_short(job, r, cause, w);
    }
    finish_short(job, r, w, tree, tape, trace, &mut from)
}
