// What the benchmark of reading out times. The standard input has a number of 4 bytes, the lowest first, and a record as
// tests/README.md says. Its store is read out so many times. Printed is the file's length plus the sum of its bytes after the
// last time, 0 if there was none. An input that does not hold both whole, or whose record is too long, gets a message on the
// standard error instead.
#![tactic(auto)]

ghost use Rattle.std.specs.Prelude.{◌*◌, ◌≤◌, length};
ghost use Rattle.io.specs.Counts.{IsPrefixLen};
ghost use Rattle.store_records.specs.Records.{most_bytes};

use readout_outcomes::read_into;
use state_spec::State;
use store_records::{HEAD_LENGTH, MOST_BYTES, NoRecord, read_record, state_of};

// The descriptors of the standard input, output and error.
const STDIN_FILENO: i32 = 0;

const STDOUT_FILENO: i32 = 1;

const STDERR_FILENO: i32 = 2;

// Reads the store out so many times. The length of the last file.
fn repeat(state: State, tree: &[u8], out: &mut [u8], times: u64) -> usize
    ensures { IsPrefixLen result out.new }
{
    let mut length = 0;
    for _ in 0..times {
        length = read_into(state, tree, out).unwrap_or(0);
    }
    length
}

fn sum_of(file: &[u8]) -> u64
    requires { length file.now ≤ most_bytes }
    ensures { result ≤ 255 * most_bytes }
{
    let mut sum = 0;
    for byte in file {
        sum += u64::from(*byte);
    }
    sum
}

fn print_total(file: &[u8])
    requires { length file.now ≤ most_bytes }
{
    io::print_decimal(STDOUT_FILENO, file.len() as u64 + sum_of(file));
    io::write_all(STDOUT_FILENO, b"\n");
}

fn run(state: State, tree: &[u8], out: &mut [u8], times: u64)
    requires { length out.old ≤ most_bytes }
{
    let length = repeat(state, tree, out, times);
    print_total(&out[..length]);
}

fn run_with(state: State, tree: &[u8], room: usize, times: u64)
    requires { room ≤ most_bytes }
{
    let mut space = [0u8; MOST_BYTES];
    run(state, tree, &mut space[..room], times);
}

fn run_record(times: u64) {
    let mut head = [0u8; HEAD_LENGTH];
    let mut space = [0u8; MOST_BYTES];
    match read_record(&mut head, &mut space) {
        Ok(lengths) => run_with(state_of(&head), &space[..lengths.tree], lengths.room, times),
        Err(NoRecord::Short) => {
            io::write_all(STDERR_FILENO, b"the input ends within a record\n");
        }
        Err(NoRecord::Long) => {
            io::write_all(STDERR_FILENO, b"a record is too long\n");
        }
    }
}

fn main() {
    let mut times = [0u8; 4];
    if io::read_full(STDIN_FILENO, &mut times) < times.len() {
        io::write_all(STDERR_FILENO, b"the input has no count\n");
        return;
    }
    run_record(u64::from(u32::from_le_bytes(times)));
}
