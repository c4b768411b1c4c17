// The calls of a case.
use super::rows::{byte, number, short};
use super::states::state_of;
use super::trees::checksum;
use call_draws::MOST_LEAVES;
use call_spec::{Called, Refusal};
use operation_spec::Answer;
use state_spec::State;

// What the last call brings, its peak among it, how many wait then, and the checksum of the tree before it.
#[derive(Clone, Copy)]
pub struct Shown {
    pub reply: Result<Answer, Refusal>,
    pub leaves: usize,
    pub peak: usize,
    pub waiting: u16,
    pub sum: u64,
}

// A call, of which nothing is said here.
fn call_with(
    state: State,
    tree: &mut [u8],
    ticket: &[u8],
    tape: &[u16],
    trace: &mut [u16],
) -> Called {
    call::call(state, tree, ticket, tape, trace)
}

// A call with a ticket and a tape of the row's lengths. A ticket's key starts at byte 1, its value at byte 5.
fn made(row: &[usize; 128], state: State, tree: &mut [u8], trace: &mut [u16]) -> Called {
    let mut ticket_space = [0u8; MOST_LEAVES];
    ticket_space[0] = byte(row, b'K');
    ticket_space[1] = byte(row, b'C');
    ticket_space[5] = byte(row, b'W');
    let ticket = number(row, b'T') % MOST_LEAVES;
    let mut tape_space = [0u16; MOST_LEAVES];
    tape_space[1] = short(row, b'Y');
    tape_space[2] = short(row, b'Z');
    let tape = number(row, b'D') % MOST_LEAVES;
    call_with(
        state,
        tree,
        &ticket_space[..ticket],
        &tape_space[..tape],
        trace,
    )
}

// The state after the calls that are made before, with a trace buffer of their own.
fn earlier(row: &[usize; 128], tree: &mut [u8]) -> State {
    let mut trace = [0u16; MOST_LEAVES];
    let mut state = state_of(row);
    for _ in 0..number(row, b'N') {
        state = made(row, state, tree, &mut trace).state;
    }
    state.mark &= byte(row, b'M');
    state
}

// The calls of a case.
pub fn calls(row: &[usize; 128], tree: &mut [u8], trace: &mut [u16]) -> Shown {
    let state = earlier(row, tree);
    let sum = checksum(tree);
    let last = made(row, state, tree, trace);
    Shown {
        reply: last.reply,
        leaves: last.leaves,
        peak: last.peak,
        waiting: last.state.count,
        sum,
    }
}
