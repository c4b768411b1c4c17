// The put rounds of a call: they want none, and nothing is held.
#![tactic(auto)]

ghost use Rattle.std.specs.Prelude.{◌+◌, ◌*◌, ◌≤◌, length};
ghost use Rattle.bucket_call_spec.specs.Call.{draw_of};
ghost use Rattle.put_rounds.specs.Put.{Stepped, Puts};

use idle_rounds::idle::{Idle, draw_at, idle_rounds};
use one_round::ascends;
use path_slots::PATH_SLOTS;
use round_close::Fault;

// So many put rounds, from draw `first` on. A new node whose key waits already is damage that the first of them finds.
pub fn put_rounds(
    w: &mut [u8],
    n: usize,
    tree: &mut [u8],
    size: usize,
    rounds: usize,
    first: usize,
    tape: &[u16],
    trace: &mut [u16],
    from: &mut [u32; PATH_SLOTS],
) -> Idle
    requires { (Stepped size n w.old tree.old) × ((1 ≤ rounds) × ((first + rounds ≤ length tape.now) × (2 * rounds ≤ length trace.old))) }
    ensures { Puts size n (draw_of size tape.now) rounds first w.old tree.old trace.old w.new tree.new trace.new result }
{
    if !ascends(w, n) {
        trace[rounds] = draw_at(tape, first, size) as u16;
        return Idle {
            fault: Some(Fault::Damage),
            waiting: n,
            shown: 1,
            peak: 0,
        };
    }
    idle_rounds(
        w,
        n,
        tree,
        size,
        &[],
        tape,
        first,
        rounds,
        trace,
        rounds,
        from,
    )
}
