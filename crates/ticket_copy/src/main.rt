// The copying program: `ticket_copy OLD NEW` copies a file of tickets to a second file with the fields that a ticket's kind does
// not use zeroed, and prints how many tickets it changed. Where it cannot, the standard error says why, nothing is printed, and
// NEW is what it was.
#![tactic(auto)]

mod checks;
mod copying;
mod messages;
mod new_file;

ghost use Rattle.std.specs.Prelude.{◌≤◌, length, IfSome};
ghost use Rattle.io.specs.Counts.{IsPrefixLen};
ghost use Rattle.named_files.specs.Names.{longest_name};

use checks::may_replace;
use file_facts::facts_of;
use messages::{say_empty, say_usage};
use named_files::{LONGEST_NAME, Named, has_argument, path_of, say_failed};
use std::env::{Env, FillError};
use std::fs;
use std::io::{Error, Print};
use std::rt::Files;

// The system's numbers for an argument that is not there, and for one that is too long.
const MISSING: i32 = 22;

const TOO_LONG: i32 = 36;

fn open_read<F: Files>(files: &F, name: &[u8]) -> Result<F::File, Error> {
    fs::open(files, path_of(name)?)
}

fn run(rt: &(impl Files + Print), old: Named, new: Named) {
    if let Ok(mut file) = old.said(open_read(rt, old.name), b"cannot open ") {
        let facts = facts_of(rt, old.name);
        if may_replace(rt, facts, old, new) {
            new_file::copy(rt, &mut file, facts, old, new);
        }
    }
}

// A name of this program's messages.
fn named(name: &[u8]) -> Named
    requires { length name.now ≤ longest_name }
{
    Named {
        program: b"ticket_copy: ",
        name,
    }
}

// Why an argument did not come.
fn reason(error: FillError) -> Error {
    Error::from_raw_os_error(match error {
        FillError::NotPresent => MISSING,
        FillError::TooLong => TOO_LONG,
    })
}

// Puts an argument at the start of a buffer. How long it is; where it does not come, that is said.
fn name_in(rt: &impl Env, i: usize, out: &mut [u8], what: &[u8]) -> Option<usize>
    ensures { IfSome result (λ n. IsPrefixLen n out.new) }
{
    match rt.arg(i, out) {
        Ok(length) => Some(length),
        Err(error) => {
            say_failed(what, &reason(error));
            None
        }
    }
}

fn main(rt: HostRuntime) {
    let mut old_space = [0u8; LONGEST_NAME];
    let mut new_space = [0u8; LONGEST_NAME];
    if !has_argument(&rt, 2) || has_argument(&rt, 3) {
        return say_usage();
    }
    let Some(old_length) = name_in(&rt, 1, &mut old_space, b"ticket_copy: the first name") else {
        return;
    };
    let Some(new_length) = name_in(&rt, 2, &mut new_space, b"ticket_copy: the second name") else {
        return;
    };
    if old_length == 0 || new_length == 0 {
        return say_empty();
    }
    run(
        &rt,
        named(&old_space[..old_length]),
        named(&new_space[..new_length]),
    );
}
