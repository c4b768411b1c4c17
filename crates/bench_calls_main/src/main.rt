// What the benchmark times: reads an input in the walk program's format, makes the calls and prints one number, a checksum of
// the replies, the leaves and the peaks that bench/README.md defines. An input that a good opening does not start, or that ends within a
// call, gets a message on the standard error instead.
#![tactic(auto)]

ghost use Rattle.std.specs.Prelude.{◌≤◌, length};
ghost use Rattle.state_spec.specs.Fit.{largest_size};

use call_draws::{MOST_DRAWS, MOST_LEAVES, draws_of, rounds_of};
use call_spec::{Called, Refusal};
use checksums::join;
use opening::open;
use operation_spec::Answer;
use state_spec::State;
use tickets::TICKET_LENGTH;
use walk_input::{HEAD_LENGTH, LARGEST_TREE, read_tape, tree_lent};

// The descriptors of the standard input, output and error.
const STDIN_FILENO: i32 = 0;

const STDOUT_FILENO: i32 = 1;

const STDERR_FILENO: i32 = 2;

// The input is read in blocks.
const BLOCK: usize = 65536;

// The calls of a block: the state that they leave, the checksum so far, and how many bytes follow them, of a call that is not whole.
#[derive(Clone, Copy)]
struct Made {
    state: State,
    sum: u64,
    left: usize,
}

fn join_answer(sum: u64, answer: Answer) -> u64 {
    match answer {
        Answer::Found(v) => join(join(sum, 1), v),
        Answer::Absent => join(join(sum, 2), 0),
        Answer::Replaced(v) => join(join(sum, 3), v),
        Answer::New => join(join(sum, 4), 0),
        Answer::Removed(v) => join(join(sum, 5), v),
        Answer::Pushed => join(join(sum, 6), 0),
        Answer::Popped(v) => join(join(sum, 7), v),
        Answer::Empty => join(join(sum, 8), 0),
        Answer::Added => join(join(sum, 9), 0),
        Answer::Taken(v) => join(join(sum, 10), v),
        Answer::Queued => join(join(sum, 11), 0),
        Answer::Dequeued(v) => join(join(sum, 12), v),
    }
}

// The number of a reply's word, and its value or the number of the refusal.
fn join_reply(sum: u64, reply: Result<Answer, Refusal>) -> u64 {
    match reply {
        Ok(answer) => join_answer(sum, answer),
        Err(refusal) => join(join(sum, 0), refusal as u64),
    }
}

// The first n numbers of a trace buffer, one after the other.
fn join_leaves(sum: u64, trace: &[u16], n: usize) -> u64 {
    trace
        .iter()
        .take(n)
        .fold(sum, |joined, leaf| join(joined, u64::from(*leaf)))
}

// Makes the calls that stand whole at a block's start, one after the other. What a call leaves holds the state for the next one, so
// that it is not copied between them.
fn make_calls(
    opened: State,
    before: u64,
    tree: &mut [u8],
    block: &[u8],
    tape: &mut [u16],
    trace: &mut [u16],
) -> Made
    ensures { result.left ≤ length block.now }
{
    let calls = block.chunks_exact(TICKET_LENGTH + 2 * tape.len());
    let left = calls.remainder().len();
    let mut made = Called {
        state: opened,
        // No call yet: only the state is read.
        reply: Ok(Answer::Empty),
        leaves: 0,
        peak: 0,
    };
    let mut sum = before;
    for bytes in calls {
        read_tape(bytes, tape);
        made = call::call(made.state, tree, &bytes[..TICKET_LENGTH], tape, trace);
        let revealed = join_leaves(join_reply(sum, made.reply), trace, made.leaves);
        sum = join(revealed, made.peak as u64);
    }
    Made {
        state: made.state,
        sum,
        left,
    }
}

// Reads on into a block that holds so many bytes; how many it holds then.
fn refill(block: &mut [u8], held: usize) -> usize
    requires { held ≤ length block.old }
    ensures { (held ≤ result) × (result ≤ length block.new) }
{
    held + io::read_full(STDIN_FILENO, &mut block[held..])
}

// What is printed at the input's end, where so many bytes are left that are no whole call.
fn print_end(left: usize, sum: u64) {
    if left != 0 {
        io::write_all(STDERR_FILENO, b"the input ends within a call\n");
    } else {
        io::print_decimal(STDOUT_FILENO, sum);
        io::write_all(STDOUT_FILENO, b"\n");
    }
}

// Block by block up to the input's end. A proved loop has to end, and nothing says that an input does: no run uses up the turns.
fn run(opened: State, tree: &mut [u8], block: &mut [u8], tape: &mut [u16], trace: &mut [u16]) {
    let mut state = opened;
    let mut sum = 1;
    let mut held = 0;
    for _ in 0..u64::MAX {
        let filled = refill(block, held);
        if filled == held {
            return print_end(held, sum);
        }
        let made = make_calls(state, sum, tree, &block[..filled], tape, trace);
        state = made.state;
        sum = made.sum;
        held = made.left;
        block.copy_within(filled - held..filled, 0);
    }
}

// The calls of an input for a store that was opened.
fn run_opened(opened: State, tree: &mut [u8])
    requires { (1 ≤ opened.size) × (opened.size ≤ largest_size) }
{
    let leaves = 2 * rounds_of(opened.structure, opened.size);
    let draws = draws_of(opened.structure, opened.size);
    let mut block = [0u8; BLOCK];
    let mut tape = [0u16; MOST_DRAWS];
    let mut trace = [0u16; MOST_LEAVES];
    run(
        opened,
        tree,
        &mut block,
        &mut tape[..draws],
        &mut trace[..leaves],
    );
}

fn print_bad_opening() {
    io::write_all(
        STDERR_FILENO,
        b"the input does not start with a good opening\n",
    );
}

fn main() {
    let mut head = [0u8; HEAD_LENGTH];
    if io::read_full(STDIN_FILENO, &mut head) < HEAD_LENGTH {
        return print_bad_opening();
    }
    let [structure, size] = head;
    let mut space = [0u8; LARGEST_TREE];
    let tree: &mut [u8] = &mut space[..tree_lent(size)];
    let opened = open(structure, size, tree);
    if opened.mark != 0 {
        return print_bad_opening();
    }
    run_opened(opened, tree);
}
