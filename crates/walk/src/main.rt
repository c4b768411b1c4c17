// The walk program: reads a structure byte, a size byte, then for each call a ticket and its tape numbers from standard
// input, makes the calls on a store, and prints a line for each as soon as it has been made.
#![tactic(auto)]

ghost use Rattle.std.specs.Prelude.{◌≡◌, ◌≤◌, length};
ghost use Rattle.io.specs.Counts.{IsPrefixLen};
ghost use Rattle.state_spec.specs.Fit.{largest_size};
ghost use Rattle.walk_spec.specs.Lines.{longest_line};
ghost use Rattle.walk_spec.specs.Input.{record_length};
ghost use Rattle.walk_spec.specs.Walk.{call_in, Printed};

use call_draws::MOST_LEAVES;
use input_calls::{call_in, read_record};
use input_opening::{Store, open_input, print, whole};
use state_spec::State;
use text_writer::LONGEST_LINE;
use walk_input::{LARGEST_TREE, LONGEST_RECORD, tree_lent};
use walk_lines::line;

// What a call of the input leaves: the state, and the length of its line.
#[derive(Clone, Copy)]
struct Walked {
    state: State,
    length: usize,
}

// Makes the call that stands in `input`, on a store of a size that stores have, and puts its line into `out`.
fn walk_call(state: State, tree: &mut [u8], input: &[u8], out: &mut [u8]) -> Walked
    requires { ((1 ≤ state.size) × (state.size ≤ largest_size)) × (record_length state.structure state.size ≤ length input.now) × (longest_line ≤ length out.old) }
    ensures size_value { (result.state.size ≡ state.size) × IsPrefixLen result.length out.new }
    ensures printed { Printed (call_in state tree.old input.now) out.old result.state tree.new out.new result.length }
{
    let mut trace = [0u16; MOST_LEAVES];
    let made = call_in(state, tree, input, &mut trace);
    let length = line(made.reply, made.leaves, &trace, out);
    Walked {
        state: made.state,
        length,
    }
}

// Reads a call, in pieces of any length, makes it and prints its line. None where no more is to be read.
fn read_call(store: &mut Store, tree: &mut [u8]) -> Option<()>
    ensures { store.new.state.size ≡ store.old.state.size }
{
    let state = store.state;
    let mut input = [0u8; LONGEST_RECORD];
    whole(read_record(state.structure, state.size, &mut input))?;
    let mut out = [0u8; LONGEST_LINE];
    let walked = walk_call(state, tree, &input, &mut out);
    *store = Store {
        state: walked.state,
    };
    if print(&out[..walked.length]) {
        Some(())
    } else {
        None
    }
}

// The calls up to the input's end. A proved loop has to end, and nothing says that an input does: no run uses up the turns.
fn read_calls(opened: Store, tree: &mut [u8]) {
    let mut store = opened;
    for _ in 0..u64::MAX {
        if read_call(&mut store, tree).is_none() {
            return;
        }
    }
}

fn main() {
    let mut space = [0u8; LARGEST_TREE];
    if let Some(opened) = open_input(&mut space) {
        let length = tree_lent(opened.state.size);
        read_calls(opened, &mut space[..length]);
    }
}
