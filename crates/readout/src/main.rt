// The readout program: reads what the walk program reads, makes the calls, and reads the store out as soon as a call has closed
// it. The file goes to the standard output or, with one argument, to a new file of that name. Where there is no file the
// standard error says why.
#![tactic(auto)]

mod input;
mod messages;
mod new_file;

use input::{read_calls, read_head};
use messages::{say_no_file, say_usage};
use named_files::{LONGEST_NAME, Named, has_argument, say_failed};
use opening::open;
use readout_outcomes::read_into;
use readout_spec::{COUNT_WIDTH, INDEX_WIDTH, MOST_ITEMS, VALUE_WIDTH};
use state_spec::State;
use std::env::{Env, FillError};
use std::io::{Error, Print};
use std::rt::Files;
use walk_input::{LARGEST_TREE, tree_lent};

// The longest file. Each slot and each waiting place that holds a node gives an entry, of 16 bytes, or a line of the report, of
// 5: no file is longer than that of the most nodes, all good and with other keys.
const LARGEST_FILE: usize = COUNT_WIDTH + (INDEX_WIDTH + VALUE_WIDTH) * MOST_ITEMS;

// The system's number for an argument that is too long.
const TOO_LONG: i32 = 36;

// The file goes to the name's new file, or with no name to the standard output.
fn put(rt: &(impl Files + Print), file: &[u8], name: Option<Named>) {
    if let Some(name) = name {
        return new_file::put(rt, file, name);
    }
    if let Err(error) = rt.write_all(file) {
        say_failed(b"readout: the standard output", &error);
    }
}

fn read_out_to(rt: &(impl Files + Print), state: State, tree: &[u8], name: Option<Named>) {
    let mut out = [0u8; LARGEST_FILE];
    match read_into(state, tree, &mut out) {
        Ok(length) => put(rt, &out[..length], name),
        Err(cause) => say_no_file(cause),
    }
}

// Opens a store, makes the calls and reads the store out as it is then.
fn run(rt: &(impl Files + Print), name: Option<Named>) {
    let head = read_head();
    let mut space = [0u8; LARGEST_TREE];
    let length = tree_lent(head.size);
    let tree: &mut [u8] = &mut space[..length];
    let opened = open(head.structure, head.size, tree);
    if opened.mark != 0 {
        return read_out_to(rt, opened, tree, name);
    }
    let state = read_calls(opened, tree);
    read_out_to(rt, state, tree, name);
}

fn main(rt: HostRuntime) {
    let mut space = [0u8; LONGEST_NAME];
    if has_argument(&rt, 2) {
        return say_usage();
    }
    match rt.arg(1, &mut space) {
        Err(FillError::NotPresent) => run(&rt, None),
        Err(FillError::TooLong) => {
            say_failed(b"readout: the name", &Error::from_raw_os_error(TOO_LONG));
        }
        Ok(0) => say_usage(),
        Ok(length) => {
            let name = Named {
                program: b"readout: ",
                name: &space[..length],
            };
            run(&rt, Some(name));
        }
    }
}
