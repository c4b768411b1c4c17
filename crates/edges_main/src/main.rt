// What the walk program cannot reach: buffers of other lengths, states and trees that no call leaves, and openings on trees of
// another length. A line of the input is a case, as rows.rt says; prints what each is answered, which document 01 says.
#![tactic(auto)]

mod calls;
mod cases;
mod lines;
mod rows;
mod states;
mod trees;

use cases::case;
use rows::row_of;

// The descriptor of the standard input.
const STDIN_FILENO: i32 = 0;

// A line with a label is a case. One without gives numbers that the lines after it leave out.
fn line(usual: [usize; 128], text: &[u8]) -> [usize; 128] {
    let colon = text.iter().position(|b| *b == b':').unwrap_or(text.len());
    let row = row_of(usual, &text[colon..]);
    if colon == 0 {
        return row;
    }
    case(&text[..colon], &row);
    usual
}

// What stands after the last newline is a line too; an empty one gives no numbers.
fn all(text: &[u8]) {
    let mut usual = [0; 128];
    for row in text.split(|b| *b == b'\n') {
        let next = line(usual, row);
        usual = next;
    }
}

fn main() {
    let mut text = io::large_buffer();
    let n = io::read_full(STDIN_FILENO, &mut text);
    all(&text[..n]);
}
