// Reads closed stores out. The standard input has records, one after the other, as tests/README.md says. For each its number,
// its file's length and its whole output buffer go to the standard output. An input that ends within a record ends the program,
// and so does a record that is too long, with a message on the standard error.
#![tactic(auto)]

ghost use Rattle.std.specs.Prelude.{◌≤◌};
ghost use Rattle.store_records.specs.Records.{most_bytes};

use readout_outcomes::read_into;
use readout_spec::NoFile;
use state_spec::State;
use store_records::{HEAD_LENGTH, MOST_BYTES, NoRecord, read_record, state_of};

// The descriptors of the standard output and error.
const STDOUT_FILENO: i32 = 1;

const STDERR_FILENO: i32 = 2;

// What an output buffer holds at first.
const FILLED: u8 = 165;

// The number of a refusal, 0 if there is none, in one byte, and the file's length, 0 if there is none, in four.
fn told(outcome: Result<usize, NoFile>) -> [u8; 5] {
    let (number, length) = match outcome {
        Ok(length) => (0, length),
        Err(cause) => (cause as u8, 0),
    };
    let [a, b, c, d, ..] = length.to_le_bytes();
    [number, a, b, c, d]
}

// Reads a store out, and writes what that gave. Whether it could be written.
fn answer(state: State, tree: &[u8], out: &mut [u8]) -> bool {
    let first = told(read_into(state, tree, out));
    io::write_all(STDOUT_FILENO, &first) && io::write_all(STDOUT_FILENO, out)
}

fn answer_with(state: State, tree: &[u8], room: usize) -> bool
    requires { room ≤ most_bytes }
{
    let mut space = [FILLED; MOST_BYTES];
    answer(state, tree, &mut space[..room])
}

// Reads a record and answers it. Whether to read on.
fn answer_next(space: &mut [u8]) -> bool {
    let mut head = [0u8; HEAD_LENGTH];
    match read_record(&mut head, space) {
        Ok(lengths) => answer_with(state_of(&head), &space[..lengths.tree], lengths.room),
        Err(NoRecord::Short) => false,
        Err(NoRecord::Long) => {
            io::write_all(STDERR_FILENO, b"a record is too long\n");
            false
        }
    }
}

// The records up to the input's end. A proved loop has to end, and nothing says that an input does: no run uses up so many turns.
fn main() {
    let mut space = [0u8; MOST_BYTES];
    for _ in 0..u64::MAX {
        if !answer_next(&mut space) {
            return;
        }
    }
}
