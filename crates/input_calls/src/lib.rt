// The calls of the walk program's input: each is read and made.
#![tactic(auto)]

ghost use Rattle.std.specs.Prelude.{◌≡◌, ◌*◌, ◌≤◌, length, take, replicate, IfOk};
ghost use Rattle.state_spec.specs.Fetching.{rounds_of};
ghost use Rattle.state_spec.specs.Fit.{largest_size};
ghost use Rattle.walk_spec.specs.Lines.{most_leaves};
ghost use Rattle.walk_spec.specs.Input.{record_length, longest_record};
ghost use Rattle.walk_spec.specs.Walk.{call_in};
ghost use Rattle.call_spec.specs.Store.{call_ended_as};

use call_draws::{MOST_DRAWS, draws_of, rounds_of};
use call_spec::Called;
use state_spec::State;
use tickets::TICKET_LENGTH;
use walk_input::{LONGEST_RECORD, read_part, read_tape, record_length};
use walk_spec::Stop;

// Reads the bytes of a call to the start of `input`; how they came.
pub fn read_record(structure: u8, size: u8, input: &mut [u8]) -> Result<(), Stop>
    requires { ((1 ≤ size) × (size ≤ largest_size)) × (longest_record ≤ length input.old) }
    ensures { record_length structure size ≤ length input.new }
{
    read_part(&mut input[..record_length(structure, size)])
}

// Makes the call that stands first in `input`, on a store of a size that stores have, with the first 2F numbers of a fresh trace buffer.
pub fn call_in(state: State, tree: &mut [u8], input: &[u8], trace: &mut [u16]) -> Called
    requires { ((1 ≤ state.size) × (state.size ≤ largest_size)) × (record_length state.structure state.size ≤ length input.now) × (trace.old ≡ replicate most_leaves 0) }
    ensures { call_ended_as result tree.new (take (2 * rounds_of state.structure state.size) trace.new) ≡ call_in state tree.old input.now }
{
    let leaves = 2 * rounds_of(state.structure, state.size);
    let draws = draws_of(state.structure, state.size);
    let mut tape = [0u16; MOST_DRAWS];
    read_tape(input, &mut tape[..draws]);
    call::call(
        state,
        tree,
        &input[..TICKET_LENGTH],
        &tape[..draws],
        &mut trace[..leaves],
    )
}

// Reads the next call and makes it. The leaves that it revealed are the first of the trace buffer.
pub fn next_call(state: State, tree: &mut [u8], trace: &mut [u16]) -> Result<Called, Stop>
    requires { ((1 ≤ state.size) × (state.size ≤ largest_size)) × (trace.old ≡ replicate most_leaves 0) }
    ensures { IfOk result (λ made. (made.state.size ≡ state.size) × (made.leaves ≤ length trace.new)) }
{
    let mut input = [0u8; LONGEST_RECORD];
    read_record(state.structure, state.size, &mut input)?;
    Ok(call_in(state, tree, &input, trace))
}
