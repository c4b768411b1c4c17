// The exports for C hosts, each the entry of that name in puzlorig: include/puzlorig.h says what it takes, returns and leaves.
#![tactic(auto)]

ghost use Rattle.std.specs.Prelude.{◌≡◌};
ghost use Rattle.state_spec.specs.Ticket.{ticket_length};
ghost use Rattle.lent_bytes_spec.specs.StateBytes.{state_length};
ghost use Rattle.host_spec.specs.Lengths.{tree_lent, tape_lent, trace_lent, file_lent};
ghost use Rattle.host_spec.specs.Result.{result_length};
ghost use Rattle.host_spec.specs.Host.{host_opening, host_opened, host_leaving, host_called, host_reading, host_read_out};

use puzlorig::{calls, lengths, openings, readouts};

#[unsafe(no_mangle)]
pub extern "C" fn puzlorig_open(structure: u64, size: u64, state: &mut [u8], tree: &mut [u8]) -> u32
    ensures { host_opening result state.new tree.new ≡ host_opened structure size state.old tree.old }
{
    openings::puzlorig_open(structure, size, state, tree)
}

#[unsafe(no_mangle)]
pub extern "C" fn puzlorig_call(
    state: &mut [u8],
    tree: &mut [u8],
    ticket: &[u8],
    tape: &[u8],
    trace: &mut [u8],
    res: &mut [u8],
) -> u32
    ensures { host_leaving result state.new tree.new trace.new res.new ≡ host_called state.old tree.old ticket.now tape.now trace.old res.old }
{
    calls::puzlorig_call(state, tree, ticket, tape, trace, res)
}

#[unsafe(no_mangle)]
pub extern "C" fn puzlorig_read_out(
    state: &[u8],
    tree: &[u8],
    out: &mut [u8],
    file: &mut u64,
) -> u32
    ensures { host_reading result file.new out.new ≡ host_read_out state.now tree.now out.old }
{
    readouts::puzlorig_read_out(state, tree, out, file)
}

#[unsafe(no_mangle)]
pub extern "C" fn puzlorig_state_length() -> u64
    ensures { result ≡ state_length }
{
    lengths::puzlorig_state_length()
}

#[unsafe(no_mangle)]
pub extern "C" fn puzlorig_ticket_length() -> u64
    ensures { result ≡ ticket_length }
{
    lengths::puzlorig_ticket_length()
}

#[unsafe(no_mangle)]
pub extern "C" fn puzlorig_result_length() -> u64
    ensures { result ≡ result_length }
{
    lengths::puzlorig_result_length()
}

#[unsafe(no_mangle)]
pub extern "C" fn puzlorig_tree_length(size: u64) -> u64
    ensures { result ≡ tree_lent size }
{
    lengths::puzlorig_tree_length(size)
}

#[unsafe(no_mangle)]
pub extern "C" fn puzlorig_tape_length(structure: u64, size: u64) -> u64
    ensures { result ≡ tape_lent structure size }
{
    lengths::puzlorig_tape_length(structure, size)
}

#[unsafe(no_mangle)]
pub extern "C" fn puzlorig_trace_length(structure: u64, size: u64) -> u64
    ensures { result ≡ trace_lent structure size }
{
    lengths::puzlorig_trace_length(structure, size)
}

#[unsafe(no_mangle)]
pub extern "C" fn puzlorig_read_out_length(size: u64) -> u64
    ensures { result ≡ file_lent size }
{
    lengths::puzlorig_read_out_length(size)
}
