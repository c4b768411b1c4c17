// Prints answers and trees.
ghost use Rattle.std.specs.Prelude.{◌≤◌};

use super::memory::{Memory, next_from};
use operation_spec::{Answer, Full};
use slot_spec::{Link, Node};

// The descriptor of the standard output.
const STDOUT_FILENO: i32 = 1;

fn text(words: &[u8]) {
    io::write_all(STDOUT_FILENO, words);
}

// A word, and a number after it.
fn valued(word: &[u8], value: u64) {
    text(word);
    io::print_decimal(STDOUT_FILENO, value);
    text(b"\n");
}

fn print_byte(b: u8) {
    let one = [b; 1];
    text(&one);
}

// A key as its character (see main).
fn print_key(key: u32) {
    print_byte(((u64::from(key) + 48) % 256) as u8);
}

pub fn print_call(sign: u8, character: u8) {
    print_byte(sign);
    print_byte(character);
    text(b" ");
}

fn print_answered(answer: Answer) {
    match answer {
        Answer::Found(v) => valued(b"found ", v),
        Answer::Absent => text(b"absent\n"),
        Answer::Replaced(v) => valued(b"replaced ", v),
        Answer::New => text(b"new\n"),
        Answer::Removed(v) => valued(b"removed ", v),
        Answer::Pushed => text(b"pushed\n"),
        Answer::Popped(v) => valued(b"popped ", v),
        Answer::Added => text(b"added\n"),
        Answer::Taken(v) => valued(b"taken ", v),
        Answer::Queued => text(b"queued\n"),
        Answer::Dequeued(v) => valued(b"dequeued ", v),
        Answer::Empty => text(b"empty\n"),
    }
}

pub fn print_answer(answer: Result<Answer, Full>) {
    match answer {
        Ok(told) => print_answered(told),
        Err(Full) => text(b"full\n"),
    }
}

// What is said of a root link that is too high for the operations.
pub fn print_too_high() {
    text(b"the root link is too high\n");
}

// A link: the key that it leads to and its height.
fn print_link(link: Link) {
    if link.height == 0 {
        text(b"-");
        return;
    }
    print_key(link.key);
    text(b"/");
    io::print_decimal(STDOUT_FILENO, u64::from(link.height));
}

fn print_node(n: Node) {
    print_key(n.key);
    text(b" left ");
    print_link(n.left);
    text(b" right ");
    print_link(n.right);
    valued(b" value ", n.value);
}

// The root link, and the nodes by ascending key.
pub fn print_tree(memory: Memory)
    requires { memory.count ≤ 16 }
{
    text(b"root ");
    print_link(memory.root);
    text(b"\n");
    let mut least: u64 = 0;
    for _ in 0..memory.count {
        if let Some(i) = next_from(memory, least) {
            let n = memory.nodes[i];
            print_node(n);
            least = n.key as u64 + 1;
        }
    }
    text(b"\n");
}
