// Rounds that want none: each reveals its draw.
ghost use Rattle.std.specs.Prelude.{◌≡◌, ◌+◌, ◌^◌, ◌<◌, ◌≤◌, length};
ghost use Rattle.bucket_call_spec.specs.Call.{draw_of};
ghost use Rattle.idle_rounds.specs.Idle.{Between, IdledAll};

use one_round::idle_round;
use path_slots::PATH_SLOTS;
use round_close::Fault;
use tree_paths::leaves;

// How rounds that want none ended: the fault, if one closed the store, how many nodes wait then, how many leaves these rounds revealed,
// and the largest count at the close of one of them.
#[derive(Clone, Copy)]
pub struct Idle {
    pub fault: Option<Fault>,
    pub waiting: usize,
    pub shown: usize,
    pub peak: usize,
}

// A draw of the tape: the remainder of its number by the number of leaves.
pub fn draw_at(tape: &[u16], d: usize, size: usize) -> usize
    requires { (d < length tape.now) × (size ≤ 8) }
    ensures { (result ≡ draw_of size tape.now d) × ((result < 2 ^ size) × (result < 256)) }
{
    usize::from(tape[d]) % leaves(size)
}

// So many rounds that want none, from draw `first` on; the leaves go to the trace from place `at` on. `from` is scratch space.
pub fn idle_rounds(
    w: &mut [u8],
    n: usize,
    tree: &mut [u8],
    size: usize,
    held: &[u32],
    tape: &[u16],
    first: usize,
    count: usize,
    trace: &mut [u16],
    at: usize,
    from: &mut [u32; PATH_SLOTS],
) -> Idle
    requires { Between size n w.old tree.old held.now × ((first + count ≤ length tape.now) × (at + count ≤ length trace.old)) }
    ensures { IdledAll size n (draw_of size tape.now) count first at w.old tree.old trace.old held.now w.new tree.new trace.new result }
{
    let mut waiting = n;
    let mut peak = 0;
    for i in 0..count {
        let leaf = draw_at(tape, first + i, size);
        trace[at + i] = leaf as u16;
        let r = idle_round(w, waiting, tree, size, leaf, held, from);
        waiting = r.waiting;
        peak = peak.max(r.count);
        if r.fault.is_some() {
            return Idle {
                fault: r.fault,
                waiting,
                shown: i + 1,
                peak,
            };
        }
    }
    Idle {
        fault: None,
        waiting,
        shown: count,
        peak,
    }
}
