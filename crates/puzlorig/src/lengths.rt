// The lengths in bytes that a host must lend for a structure and size; 0 where there is no such structure or size.
ghost use Rattle.std.specs.Prelude.{◌≡◌};
ghost use Rattle.state_spec.specs.Ticket.{ticket_length};
ghost use Rattle.lent_bytes_spec.specs.StateBytes.{state_length};
ghost use Rattle.host_spec.specs.Lengths.{known_store, tree_lent, tape_lent, trace_lent, file_lent};
ghost use Rattle.host_spec.specs.Result.{result_length};

use call_draws::{draws_of, rounds_of};
use fitness::{LARGEST_SIZE, LARGEST_STRUCTURE, in_range};
use host_spec::RESULT_LENGTH;
use lent_bytes_spec::{NUMBER_LENGTH, STATE_LENGTH};
use readout_spec::{COUNT_WIDTH, INDEX_WIDTH, VALUE_WIDTH};
use slot_spec::SLOT_LENGTH;
use state_spec::PLACES;
use tickets::TICKET_LENGTH;
use tree_paths::tree_length;

fn known_store(structure: u64, size: u64) -> bool
    ensures { result ≡ known_store structure size }
{
    in_range(structure, LARGEST_STRUCTURE) && in_range(size, LARGEST_SIZE)
}

pub fn puzlorig_state_length() -> u64
    ensures { result ≡ state_length }
{
    STATE_LENGTH as u64
}

pub fn puzlorig_ticket_length() -> u64
    ensures { result ≡ ticket_length }
{
    TICKET_LENGTH as u64
}

pub fn puzlorig_result_length() -> u64
    ensures { result ≡ result_length }
{
    RESULT_LENGTH as u64
}

pub fn puzlorig_tree_length(size: u64) -> u64
    ensures { result ≡ tree_lent size }
{
    if !in_range(size, LARGEST_SIZE) {
        return 0;
    }
    tree_length(size as usize) as u64
}

pub fn puzlorig_tape_length(structure: u64, size: u64) -> u64
    ensures { result ≡ tape_lent structure size }
{
    if !known_store(structure, size) {
        return 0;
    }
    (NUMBER_LENGTH * draws_of(structure as u8, size as u8)) as u64
}

pub fn puzlorig_trace_length(structure: u64, size: u64) -> u64
    ensures { result ≡ trace_lent structure size }
{
    if !known_store(structure, size) {
        return 0;
    }
    (NUMBER_LENGTH * (2 * rounds_of(structure as u8, size as u8))) as u64
}

// Each slot and each waiting place can bring an entry.
pub fn puzlorig_read_out_length(size: u64) -> u64
    ensures { result ≡ file_lent size }
{
    if !in_range(size, LARGEST_SIZE) {
        return 0;
    }
    let slots = tree_length(size as usize) / SLOT_LENGTH;
    (COUNT_WIDTH + (INDEX_WIDTH + VALUE_WIDTH) * (slots + PLACES)) as u64
}
