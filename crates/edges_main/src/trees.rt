// The tree that a case is lent.
use super::rows::{key, number, short};
use super::states::node;
use bucket_writer::write_slot;
use checksums::join;
use slot_spec::Link;

// Space for a tree of any size, each byte the same.
pub fn filled(byte: u8) -> [u8; 65536] {
    [byte; 65536]
}

// A slot with a node without children, where the row's slot lies within the tree.
pub fn put_slot(row: &[usize; 128], tree: &mut [u8]) {
    let at = number(row, b'S');
    if tree.len() < at + 32 {
        return;
    }
    let n = node(
        key(row, b'V'),
        short(row, b'G'),
        Link::default(),
        Link::default(),
    );
    write_slot(tree, at, n);
}

// A checksum, by which a tree is seen to be as it was; that of zero bytes is 0.
pub fn checksum(tree: &[u8]) -> u64 {
    tree.iter().fold(0, |sum, byte| join(sum, u64::from(*byte)))
}
