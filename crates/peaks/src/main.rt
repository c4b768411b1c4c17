// The peaks program, for people: reads what the walk program reads, makes the calls, and prints for each how many nodes at most
// waited and were held at the close of one of its rounds, the largest such number so far, and the limit beyond which a store overflows.
#![tactic(auto)]

ghost use Rattle.std.specs.Prelude.{◌≡◌};

use call_draws::MOST_LEAVES;
use input_calls::next_call;
use input_opening::{Store, open_input, print, whole};
use peak_lines::peak_line;
use text_writer::LONGEST_LINE;
use walk_input::{LARGEST_TREE, tree_lent};

// Prints the line of a call; whether it could be written.
fn print_peak(last: usize, largest: usize) -> bool {
    let mut out = [0u8; LONGEST_LINE];
    let length = peak_line(last, largest, &mut out);
    print(&out[..length])
}

// Reads a call, makes it and prints its line. The largest peak so far, if more is to be read.
fn read_call(store: &mut Store, before: usize, tree: &mut [u8]) -> Option<usize>
    ensures { store.new.state.size ≡ store.old.state.size }
{
    let mut trace = [0u16; MOST_LEAVES];
    let made = whole(next_call(store.state, tree, &mut trace))?;
    let largest = before.max(made.peak);
    *store = Store { state: made.state };
    if print_peak(made.peak, largest) {
        Some(largest)
    } else {
        None
    }
}

// The calls up to the input's end. A proved loop has to end, and nothing says that an input does: no run uses up the turns.
fn read_calls(opened: Store, tree: &mut [u8]) {
    let mut store = opened;
    let mut largest = 0;
    for _ in 0..u64::MAX {
        let Some(so_far) = read_call(&mut store, largest, tree) else {
            return;
        };
        largest = so_far;
    }
}

fn main() {
    let mut space = [0u8; LARGEST_TREE];
    if let Some(opened) = open_input(&mut space) {
        let length = tree_lent(opened.state.size);
        read_calls(opened, &mut space[..length]);
    }
}
