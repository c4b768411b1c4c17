// The one fetch round of a stack or a queue.
ghost use Rattle.bucket_call_spec.specs.Call.{draw_of};
ghost use Rattle.want_rounds.specs.Wanting.{held_one, FetchedAs};
ghost use Rattle.fetch_rounds.specs.Short.{CanFetchOne};

use idle_rounds::idle::{draw_at, idle_rounds};
use one_round::want_round;
use path_slots::PATH_SLOTS;
use short_steps::{short_test, short_wanted};
use slot_spec::Node;
use want_rounds::{FetchedOne, Job, came_to};

// If it wants a node it reveals the tag in the root link, and the node is held from then on under the round's draw; else it reveals its
// draw. Nothing is held before it; `from` is scratch space.
pub fn short_fetch(
    job: Job,
    w: &mut [u8],
    n: usize,
    tree: &mut [u8],
    tape: &[u16],
    trace: &mut [u16],
    from: &mut [u32; PATH_SLOTS],
) -> FetchedOne
    requires { CanFetchOne job n w.old tree.old tape.now trace.old }
    ensures { FetchedAs job (draw_of job.size tape.now) n w.old tree.old trace.old (held_one result) w.new tree.new trace.new result.fetched }
{
    let next = short_wanted(job.op, job.entries, job.root);
    let Some(want) = next else {
        let r = idle_rounds(w, n, tree, job.size, &[], tape, 0, 1, trace, 0, from);
        return FetchedOne {
            fetched: came_to(0, r.waiting, r.fault, r.shown, r.peak),
            node: Node::default(),
        };
    };
    trace[0] = want.link.tag;
    let test = |node| short_test(job.structure, want, node);
    let r = want_round(test, want, w, n, tree, job.size, &[], from);
    let Some(mut node) = r.node else {
        return FetchedOne {
            fetched: came_to(0, r.waiting, r.fault, 1, r.count),
            node: Node::default(),
        };
    };
    node.tag = draw_at(tape, 0, job.size) as u16;
    FetchedOne {
        fetched: came_to(1, r.waiting, r.fault, 1, r.count),
        node,
    }
}
