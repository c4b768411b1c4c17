// The core of a call, over a lent row: the checks that come after the state's, the rounds and the step, and what is left. What holds the
// state, a struct or bytes, stands above it.
#![tactic(auto)]

ghost use Rattle.std.specs.Prelude.{◌≡◌};
ghost use Rattle.state_spec.specs.Fetching.{rounds_of, draws_of};
ghost use Rattle.call_core.specs.Run.{Stands, CallsAs};

use call_ending::Ran;
use call_spec::Refusal;
use fitness::Head;
use tickets::{is_whole, out_of_keys, read_ticket};
use tree_paths::tree_length;
use unused_fields::has_stray;

pub mod run;

// One call on a state that is open and fits, by its head and the row of its waiting nodes, with so many fetch rounds and draws. Only a
// stack and a queue have one fetch round.
pub fn call_row(
    head: Head,
    w: &mut [u8],
    tree: &mut [u8],
    ticket: &[u8],
    tape: &[u16],
    trace: &mut [u16],
    rounds: usize,
    draws: usize,
) -> Result<Ran, Refusal>
    requires { Stands head w.old × ((rounds ≡ rounds_of head.structure head.size) × (draws ≡ draws_of head.structure head.size)) }
    ensures { CallsAs head w.old tree.old ticket.now tape.now trace.old w.new tree.new trace.new result }
{
    let size = usize::from(head.size);
    if tree.len() != tree_length(size) {
        return Err(Refusal::TreeLength);
    }
    if !is_whole(ticket) {
        return Err(Refusal::TicketLength);
    }
    let Some(op) = read_ticket(head.structure, ticket) else {
        return Err(Refusal::UnknownKind);
    };
    if has_stray(ticket) {
        return Err(Refusal::StrayField);
    }
    if out_of_keys(op, head.ahead.key) {
        return Err(Refusal::NoKeyLeft);
    }
    if tape.len() < draws {
        return Err(Refusal::ShortTape);
    }
    if trace.len() < 2 * rounds {
        return Err(Refusal::ShortTrace);
    }
    let job = run::job_for(head, op, rounds, tape);
    let n = usize::from(head.waiting);
    Ok(if rounds == 1 {
        run::run_short(job, w, n, tree, tape, trace)
    } else {
        run::run(job, w, n, tree, tape, trace)
    })
}
