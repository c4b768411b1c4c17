// Where the full slots of a path start in the tree.
#![tactic(auto)]

ghost use Rattle.std.specs.Prelude.{◌≡◌, ◌++◌, ◌+◌, ◌^◌, ◌<◌, ◌≤◌, length, take};
ghost use Rattle.list_spec.specs.Choice.{pick};
ghost use Rattle.slot_spec.specs.Tree.{bucket_length, tree_length};
ghost use Rattle.slot_spec.specs.Slot.{all_zero, slot_bytes};
ghost use Rattle.word_round_laws.specs.SlotRow.{levels, path_slots};
ghost use Rattle.word_round_laws.specs.Gather.{four_from, full_starts, PathGathered};

use path_levels::{BUCKET_SLOTS, LEVELS, start_at};
use slot_fields::is_zero;
use slot_spec::{SLOT_LENGTH, Slot};
use slot_words::load;

// The slots of the longest path.
pub const PATH_SLOTS: usize = BUCKET_SLOTS * LEVELS;

// A full slot counts one, an empty one none. It is a number to add, so that a path is gathered with no branch that the slots decide.
fn full(x: Slot) -> usize
    ensures { result ≡ pick (all_zero (slot_bytes x)) 0 1 }
{
    usize::from(!is_zero(x))
}

// Where the full slots of the bucket that starts at a byte start, after the first m. Each slot's start is written to the next
// place, and stays there if the slot is full.
fn gather_bucket(tree: &[u8], start: usize, m: usize, from: &mut [u32; PATH_SLOTS]) -> usize
    requires { (start + bucket_length ≤ length tree.now) × (start < 2 ^ 24) × (m + 4 ≤ path_slots) }
    ensures { (result ≤ m + 4) × (take result from.new ≡ take m from.old ++ full_starts tree.now (four_from start)) }
{
    let mut count = m;
    for j in 0..BUCKET_SLOTS {
        let at = start + SLOT_LENGTH * j;
        from[count] = at as u32;
        count += full(load(tree, at));
    }
    count
}

// Where the full slots of a leaf's path start, from the leaf's bucket up.
pub fn gather_path(tree: &[u8], size: usize, leaf: usize, from: &mut [u32; PATH_SLOTS]) -> usize
    requires { (size < levels) × (leaf < 2 ^ size) × (length tree.now ≡ tree_length size) }
    ensures { PathGathered size leaf tree.now from.new result }
{
    let mut count = 0;
    for level in 0..size + 1 {
        count = gather_bucket(tree, start_at(size, leaf, level), count, from);
    }
    count
}
