// Why the system could not do what it was asked.
ghost use Rattle.std.specs.Prelude.{◌≤◌};
ghost use Rattle.io.specs.Counts.{IsPrefixLen};

use std::io::{Error, Write};

// The descriptor of the standard error.
const STDERR_FILENO: i32 = 2;

// No reason is longer.
const LONGEST_REASON: usize = 256;

// What the library says of an error, from the start of `out`.
fn put_reason(error: &Error, out: &mut [u8]) {
    let mut rest: &mut [u8] = out;
    let _ = write!(rest, "{error}");
}

// Where the reason ends: at a 0, or before the number that the library puts after it.
fn reason_length(text: &[u8]) -> usize
    ensures { IsPrefixLen result text.now }
{
    for (i, letter) in text.iter().enumerate() {
        if *letter == 0 || text[i..].starts_with(b" (os error ") {
            return i;
        }
    }
    text.len()
}

// Writes a line to the standard error: what failed, a colon and the reason.
pub fn say_failed(what: &[u8], error: &Error) {
    let mut text = [0u8; LONGEST_REASON];
    put_reason(error, &mut text);
    let length = reason_length(&text);
    io::write_all(STDERR_FILENO, what);
    io::write_all(STDERR_FILENO, b": ");
    io::write_all(STDERR_FILENO, &text[..length]);
    io::write_all(STDERR_FILENO, b"\n");
}
