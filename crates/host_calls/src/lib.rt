// A call over the bytes that a C host lends: tape and trace around the core, and the state that is left.
#![tactic(auto)]

ghost use Rattle.std.specs.Prelude.{◌≡◌, ◌≤◌, length, drop, IfOk, MatchResult};
ghost use Rattle.state_spec.specs.Fit.{places};
ghost use Rattle.stash_laws.specs.Waiting.{waiting_in, Holds};
ghost use Rattle.stash.specs.Stash.{saved};
ghost use Rattle.lent_bytes_spec.specs.Numbers.{numbers_of};
ghost use Rattle.lent_bytes_spec.specs.StateBytes.{head_length, state_bytes};
ghost use Rattle.call_core.specs.Run.{Stands, CallsAs};
ghost use Rattle.host_calls.specs.Left.{Rows, head_left};

use byte_states::write_head;
use call_core::call_row;
use call_draws::{MOST_DRAWS, MOST_LEAVES, rounds_of, spare_of};
use call_ending::Ran;
use call_spec::Refusal;
use fitness::Head;
use lent_bytes_spec::{NUMBER_LENGTH, StateHead};
use lent_numbers::{read_numbers, write_numbers};

// One call of the core with the tape's first numbers and a trace of its own, in lent rows; the leaves revealed are written to the trace.
fn call_rows(
    head: Head,
    w: &mut [u8],
    tree: &mut [u8],
    ticket: &[u8],
    tape: &[u8],
    trace: &mut [u8],
    numbers: &mut [u16],
    leaves: &mut [u16],
    rounds: usize,
    draws: usize,
) -> Result<Ran, Refusal>
    requires { Rows head w.old tape.now trace.old numbers.old leaves.old rounds draws }
    ensures { CallsAs head w.old tree.old ticket.now (numbers_of tape.now) (numbers_of trace.old) w.new tree.new (numbers_of trace.new) result × (length trace.new ≡ length trace.old) }
{
    read_numbers(tape, numbers);
    let r = call_row(head, w, tree, ticket, numbers, leaves, rounds, draws)?;
    write_numbers(trace, &leaves[..r.leaves]);
    Ok(r)
}

// One call of the core over the row of a state's waiting slots and the bytes of a tape and of a trace.
pub fn call_numbers(
    head: Head,
    w: &mut [u8],
    tree: &mut [u8],
    ticket: &[u8],
    tape: &[u8],
    trace: &mut [u8],
) -> Result<Ran, Refusal>
    requires { Stands head w.old }
    ensures { CallsAs head w.old tree.old ticket.now (numbers_of tape.now) (numbers_of trace.old) w.new tree.new (numbers_of trace.new) result × (length trace.new ≡ length trace.old) }
{
    let rounds = rounds_of(head.structure, head.size);
    let draws = 2 * rounds + spare_of(head.structure);
    let taken = (tape.len() / NUMBER_LENGTH).min(draws);
    let places = (trace.len() / NUMBER_LENGTH).min(2 * rounds);
    let mut numbers = [0u16; MOST_DRAWS];
    let mut leaves = [0u16; MOST_LEAVES];
    call_rows(
        head,
        w,
        tree,
        ticket,
        tape,
        trace,
        &mut numbers[..taken],
        &mut leaves[..places],
        rounds,
        draws,
    )
}

// The root key of the byte state that a call leaves: an empty queue keeps its next unused key there.
fn key_left(h: StateHead, r: Ran) -> u32
    ensures { result ≡ (head_left h r).key }
{
    if h.structure == 4 && r.entries == 0 {
        return r.ahead.key;
    }
    r.root.key
}

// The head of the byte state that a call leaves.
fn head_left(h: StateHead, r: Ran) -> StateHead
    requires { r.waiting ≤ places }
    ensures { result ≡ head_left h r }
{
    StateHead {
        mark: r.mark,
        structure: h.structure,
        size: h.size,
        height: r.root.height,
        entries: r.entries,
        waiting: r.waiting as u16,
        key: key_left(h, r),
        tag: r.root.tag,
        ahead: r.ahead.tag,
    }
}

// The state that a call leaves which made its rounds, whose waiting slots are as it left them: it gets its new head.
fn leave_ran(state: &mut [u8], h: StateHead, r: Ran)
    requires { Holds r.waiting (drop head_length state.old) }
    ensures { state.new ≡ state_bytes (saved h.structure h.size r.mark r.entries r.root r.ahead (waiting_in r.waiting (drop head_length state.old))) }
{
    write_head(state, head_left(h, r));
}

// The state that a call leaves: one that made its rounds gives it a new head, and one that was refused left it as it came.
pub fn leave_state(state: &mut [u8], h: StateHead, called: Result<Ran, Refusal>)
    requires { IfOk called (λ r. Holds r.waiting (drop head_length state.old)) }
    ensures { MatchResult called (λ r. state.new ≡ state_bytes (saved h.structure h.size r.mark r.entries r.root r.ahead (waiting_in r.waiting (drop head_length state.old)))) (λ _. state.new ≡ state.old) }
{
    if let Ok(r) = called {
        leave_ran(state, h, r);
    }
}
