// All fetch rounds of a call: those that want a node, then those that are left; of a stack and a queue the one.
#![tactic(auto)]

ghost use Rattle.bucket_call_spec.specs.Call.{draw_of};
ghost use Rattle.node_rows.specs.Held.{held_in};
ghost use Rattle.want_rounds.specs.Wanting.{CanFetch, Fetches};

use held_keys::MOST_HELD;
use idle_rounds::idle::idle_rounds;
use node_rows::{FETCHES, ROW};
use path_slots::PATH_SLOTS;
use want_rounds::{Fetched, Job, want_rounds};

pub mod short;

// Those of a map or a heap. The rows are as for the rounds that want a node.
pub fn fetch_rounds(
    job: Job,
    w: &mut [u8],
    n: usize,
    tree: &mut [u8],
    held: &mut [u64; ROW],
    froms: &mut [u64; FETCHES],
    made: &mut [u64; ROW],
    keys: &mut [u32; MOST_HELD],
    tape: &[u16],
    trace: &mut [u16],
    from: &mut [u32; PATH_SLOTS],
) -> Fetched
    requires { CanFetch job n w.old tree.old tape.now trace.old }
    ensures { Fetches job (draw_of job.size tape.now) n w.old tree.old trace.old (held_in held.new result.count) froms.new w.new tree.new trace.new result }
{
    let mut f = want_rounds(job, w, n, tree, held, froms, made, keys, tape, trace, from);
    if f.fault.is_some() {
        return f;
    }
    let i = f.count;
    let left = job.rounds - i;
    let r = idle_rounds(
        w,
        f.waiting,
        tree,
        job.size,
        &keys[..i],
        tape,
        i,
        left,
        trace,
        i,
        from,
    );
    f.waiting = r.waiting;
    f.fault = r.fault;
    f.leaves = i + r.shown;
    f.peak = f.peak.max(r.peak);
    f
}
