// Slots and buckets in the lent tree.
#![tactic(auto)]

ghost use Rattle.std.specs.Prelude.{◌≡◌, map, ◌+◌, ◌*◌, ◌≤◌, ◌<◌, length, take, drop};
ghost use Rattle.std.proofs.lemmas.List.Edits.{sets};
ghost use Rattle.slot_spec.specs.Tree.{slot_length, bucket_length};
ghost use Rattle.slot_spec.specs.Slot.{slot_bytes, encode, read_slot, bucket_bytes};

use slot_fields::slot_of;
use slot_spec::{Node, Reading, SLOT_LENGTH, Slot};
use slot_words::{load, store};
use slots::reading;

// What the slot that starts at a byte is read as, in a bucket of a tree of that size.
pub fn read_slot(tree: &[u8], at: usize, size: usize, bucket: usize) -> Reading
    requires { (at + slot_length ≤ length tree.now) × (size ≤ 16) }
    ensures { result ≡ read_slot size bucket (take slot_length (drop at tree.now)) }
{
    reading(load(tree, at), size, bucket)
}

// A node written to the slot that starts at a byte.
pub fn write_slot(tree: &mut [u8], at: usize, n: Node)
    requires { at + slot_length ≤ length tree.old }
    ensures { tree.new ≡ sets tree.old at (encode n) }
{
    store(tree, at, slot_of(n));
}

// The bucket writer: the four-slot part of a lent tree gets the slots, at most four, and zero bytes in the others.
pub fn write_bucket(part: &mut [u8], slots: &[Slot])
    requires { (length part.old ≡ bucket_length) × (length slots.now ≤ 4) }
    ensures { part.new ≡ bucket_bytes (map slot_bytes slots.now) }
{
    part.fill(0);
    for (j, slot) in slots.iter().enumerate() {
        store(part, SLOT_LENGTH * j, *slot);
    }
}

// One slot of a bucket is written: number j of its four-slot part of a lent tree.
pub fn write_in(part: &mut [u8], j: usize, x: Slot)
    requires { (length part.old ≡ bucket_length) × (j < 4) }
    ensures { part.new ≡ sets part.old (32 * j) (slot_bytes x) }
{
    store(part, SLOT_LENGTH * j, x);
}
