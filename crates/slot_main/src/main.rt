// Writes a node to a slot of a small tree, prints the slot's bytes, and reads the node back.
#![tactic(auto)]

use slot_spec::{Node, Reading};

// The descriptor of the standard output.
const STDOUT_FILENO: i32 = 1;

fn line(label: &[u8], n: u64) {
    io::write_all(STDOUT_FILENO, label);
    io::write_all(STDOUT_FILENO, b" ");
    io::print_decimal(STDOUT_FILENO, n);
    io::write_all(STDOUT_FILENO, b"\n");
}

fn print_slot(slot: &[u8]) {
    for (i, byte) in slot.iter().enumerate() {
        if i > 0 {
            io::write_all(STDOUT_FILENO, b" ");
        }
        io::print_decimal(STDOUT_FILENO, u64::from(*byte));
    }
    io::write_all(STDOUT_FILENO, b"\n");
}

fn print_reading(r: Reading) {
    match r {
        Reading::Full(n) => {
            line(b"key", u64::from(n.key));
            line(b"value", n.value);
            line(b"tag", u64::from(n.tag));
        }
        Reading::Empty => {
            io::write_all(STDOUT_FILENO, b"empty\n");
        }
        Reading::Bad => {
            io::write_all(STDOUT_FILENO, b"bad\n");
        }
    }
}

// The node of document 01's worked push, in bucket 3 of a tree of size 2.
fn main() {
    let node = Node {
        key: 1,
        value: 50,
        tag: 2,
        ..Node::default()
    };
    let mut tree = [0u8; 896];
    bucket_writer::write_slot(&mut tree, 256, node);
    print_slot(&tree[256..288]);
    print_reading(bucket_writer::read_slot(&tree, 256, 2, 3));
    print_reading(bucket_writer::read_slot(&tree, 0, 2, 1));
}
