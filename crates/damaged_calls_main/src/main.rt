// Calls on trees that are damaged between them, for tests: reads what the walk program reads, with five bytes more after each call's
// tape, a place of four and an amount. Before the call the tree's byte at that place, modulo the tree's length, grows by the amount,
// modulo 256. Prints the walk program's line for each call, and then that of the program `peaks`.
#![tactic(auto)]

ghost use Rattle.std.specs.Prelude.{◌≡◌, ◌≤◌, length};
ghost use Rattle.walk_spec.specs.Input.{record_length};

use call_draws::MOST_LEAVES;
use input_calls::{call_in, read_record};
use input_opening::{Store, open_input, print, print_short, whole};
use peak_lines::peak_line;
use text_writer::LONGEST_LINE;
use walk_input::{LARGEST_TREE, LONGEST_RECORD, read_part, tree_lent};
use walk_lines::line;

// The bytes of a place and an amount.
const DAMAGE_LENGTH: usize = 5;

// A byte of the tree grows by an amount. The first four bytes say its place.
fn damage(tree: &mut [u8], bytes: [u8; DAMAGE_LENGTH]) {
    if tree.is_empty() {
        return;
    }
    let [a, b, c, d, amount] = bytes;
    let at = u32::from_le_bytes([a, b, c, d]) as usize % tree.len();
    tree[at] = tree[at].wrapping_add(amount);
}

// Makes the call that stands in `input` and prints its lines. The largest peak so far, if more is to be read.
fn damaged_call(store: &mut Store, before: usize, tree: &mut [u8], input: &[u8]) -> Option<usize>
    requires { record_length store.old.state.structure store.old.state.size ≤ length input.now }
    ensures { store.new.state.size ≡ store.old.state.size }
{
    let mut trace = [0u16; MOST_LEAVES];
    let made = call_in(store.state, tree, input, &mut trace);
    let largest = before.max(made.peak);
    *store = Store { state: made.state };
    let mut out = [0u8; LONGEST_LINE];
    let length = line(made.reply, made.leaves, &trace, &mut out);
    let written = print(&out[..length]);
    let length = peak_line(made.peak, largest, &mut out);
    if written && print(&out[..length]) {
        Some(largest)
    } else {
        None
    }
}

// Reads a call and its damage, makes both and prints the call's lines.
fn read_call(store: &mut Store, before: usize, tree: &mut [u8]) -> Option<usize>
    ensures { store.new.state.size ≡ store.old.state.size }
{
    let mut input = [0u8; LONGEST_RECORD];
    whole(read_record(store.state.structure, store.state.size, &mut input))?;
    let mut bytes = [0u8; DAMAGE_LENGTH];
    if read_part(&mut bytes).is_err() {
        print_short();
        return None;
    }
    damage(tree, bytes);
    damaged_call(store, before, tree, &input)
}

// The calls up to the input's end. A proved loop has to end, and nothing says that an input does: no run uses up the turns.
fn read_calls(opened: Store, tree: &mut [u8]) {
    let mut store = opened;
    let mut largest = 0;
    for _ in 0..u64::MAX {
        let Some(so_far) = read_call(&mut store, largest, tree) else {
            return;
        };
        largest = so_far;
    }
}

fn main() {
    let mut space = [0u8; LARGEST_TREE];
    if let Some(opened) = open_input(&mut space) {
        let length = tree_lent(opened.state.size);
        read_calls(opened, &mut space[..length]);
    }
}
