// Opening a store.
#![tactic(auto)]

ghost use Rattle.std.specs.Prelude.{◌≡◌, ◌<◌, ◌%◌, ◌^◌, length, replicate};
ghost use Rattle.slot_spec.specs.Tree.{bucket_length};
ghost use Rattle.state_spec.specs.Opening.{empty, opened};
ghost use Rattle.opening.specs.Number.{opening_number, number_of, found_number};

use bucket_writer::write_bucket;
use fitness::{LARGEST_SIZE, LARGEST_STRUCTURE, in_range};
use slot_fields::no_link;
use slot_spec::{Ahead, BUCKET_LENGTH};
use state_places::no_place;
use state_spec::State;
use tree_paths::tree_length;

// A state with no entries and none waiting.
fn empty_state(mark: u8, structure: u8, size: u8) -> State
    ensures { result ≡ empty mark structure size }
{
    let root = no_link();
    let ahead = Ahead { key: 0, tag: 0 };
    let place = no_place();
    let places = [place; 101];
    State {
        mark,
        structure,
        size,
        entries: 0,
        root,
        ahead,
        count: 0,
        places,
    }
}

// Zero bytes for all of a tree: each bucket's four-slot part is lent on to the bucket writer, which is given no slot.
pub fn clear(tree: &mut [u8])
    requires { (length tree.old < 2 ^ 32) × (length tree.old % bucket_length ≡ 0) }
    ensures { tree.new ≡ replicate (length tree.old) 0 }
{
    for bucket in 0..tree.len() / BUCKET_LENGTH {
        let a = BUCKET_LENGTH * bucket;
        write_bucket(&mut tree[a..a + BUCKET_LENGTH], &[]);
    }
}

// Why a store is not opened, by number.
#[derive(Clone, Copy, PartialEq, Eq)]
pub enum Unopened {
    UnknownStructure = 11,
    UnknownSize = 12,
    TreeLength = 3,
}

pub fn number_of(cause: Unopened) -> u8
    ensures { result ≡ number_of cause }
{
    cause as u8
}

// The first cause that is met. Structure and size are asked wide: a C host's numbers are not cut to a byte.
#[tactic(auto, unfolding(crate::specs::Number::opening_number))]
pub fn check(structure: u64, size: u64, length: usize) -> Result<(), Unopened>
    ensures { found_number result ≡ opening_number structure size length }
{
    if !in_range(structure, LARGEST_STRUCTURE) {
        return Err(Unopened::UnknownStructure);
    }
    if !in_range(size, LARGEST_SIZE) {
        return Err(Unopened::UnknownSize);
    }
    if length != tree_length(size as usize) {
        return Err(Unopened::TreeLength);
    }
    Ok(())
}

// Opens a store: 11, 12, then 3 give a closed state with that mark, otherwise zero, and leave the tree; a good opening
// makes the tree all zero bytes and the state empty.
#[tactic(auto, unfolding(state_spec::specs::Opening::opened, crate::specs::Number::opening_number))]
pub fn open(structure: u8, size: u8, tree: &mut [u8]) -> State
    ensures { (result ≡ (opened structure size tree.old).state) × (tree.new ≡ (opened structure size tree.old).tree) }
{
    if let Err(cause) = check(u64::from(structure), u64::from(size), tree.len()) {
        return empty_state(number_of(cause), 0, 0);
    }
    clear(tree);
    empty_state(0, structure, size)
}
