// The lines on the standard error, and the number on the standard output.
use named_files::say_failed;
use std::io::Print;

// The descriptor of the standard error.
const STDERR_FILENO: i32 = 2;

fn say(text: &[u8]) {
    io::write_all(STDERR_FILENO, text);
}

pub fn say_usage() {
    say(b"ticket_copy: usage: ticket_copy OLD NEW, a file of tickets and the file to copy it to\n");
}

pub fn say_empty() {
    say(b"ticket_copy: a name is empty\n");
}

pub fn say_same(old: &[u8], new: &[u8]) {
    say(b"ticket_copy: ");
    say(old);
    say(b" and ");
    say(new);
    say(b" are the same file\n");
}

pub fn say_not_regular(new: &[u8]) {
    say(b"ticket_copy: ");
    say(new);
    say(b" is not a regular file\n");
}

pub fn print(rt: &impl Print, count: u64) {
    if let Err(error) = rt.println(count) {
        say_failed(b"ticket_copy: the standard output", &error);
    }
}
