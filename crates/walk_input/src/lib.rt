// The parts of the walk program's input.
#![tactic(auto)]

ghost use Rattle.std.specs.Prelude.{◌≡◌, ◌+◌, ◌*◌, ◌≤◌, length};
ghost use Rattle.state_spec.specs.Fit.{largest_size};
ghost use Rattle.state_spec.specs.Ticket.{ticket_length};
ghost use Rattle.walk_spec.specs.Input.{record_length, longest_record, tape_in, arrived_of, largest_tree};
ghost use Rattle.host_spec.specs.Lengths.{tree_lent};
ghost use Rattle.lent_bytes_spec.specs.Numbers.{number_length};

use call_draws::{MOST_DRAWS, draws_of};
use fitness::{LARGEST_SIZE, in_range};
use lent_numbers::read_numbers;
use slot_spec::BUCKET_LENGTH;
use tickets::TICKET_LENGTH;
use tree_paths::tree_length;
use walk_spec::Stop;

// The descriptor of the standard input.
const STDIN_FILENO: i32 = 0;

// The structure byte and the size byte.
pub const HEAD_LENGTH: usize = 2;

// The most bytes of one call in the input.
pub const LONGEST_RECORD: usize = TICKET_LENGTH + 2 * MOST_DRAWS;

// The tree of the largest size.
pub const LARGEST_TREE: usize = BUCKET_LENGTH * ((1 << (LARGEST_SIZE as usize + 1)) - 1);

// How a part of the input came of which so many bytes were wanted.
pub fn arrived(got: usize, wanted: usize) -> Result<(), Stop>
    ensures { result ≡ arrived_of got wanted }
{
    if wanted <= got {
        Ok(())
    } else if got == 0 {
        Err(Stop::End)
    } else {
        Err(Stop::Short)
    }
}

// Reads a part of the input, in pieces of any length; how it came.
pub fn read_part(part: &mut [u8]) -> Result<(), Stop> {
    let got = io::read_full(STDIN_FILENO, part);
    arrived(got, part.len())
}

// The length of the tree that an opening is lent.
pub fn tree_lent(size: u8) -> usize
    ensures { (result ≡ tree_lent size) × (result ≤ largest_tree) }
{
    if in_range(u64::from(size), LARGEST_SIZE) {
        tree_length(usize::from(size))
    } else {
        0
    }
}

// The bytes of one call.
pub fn record_length(structure: u8, size: u8) -> usize
    requires { (1 ≤ size) × (size ≤ largest_size) }
    ensures { (result ≡ record_length structure size) × (result ≤ longest_record) }
{
    TICKET_LENGTH + 2 * draws_of(structure, size)
}

// The tape numbers of a call, which follow its ticket.
pub fn read_tape(input: &[u8], tape: &mut [u16])
    requires { ticket_length + number_length * length tape.old ≤ length input.now }
    ensures { tape.new ≡ tape_in (length tape.old) input.now }
{
    read_numbers(&input[TICKET_LENGTH..], tape);
}
