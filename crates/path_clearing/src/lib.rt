// The path of a leaf cleared: only the slots that were full are written.
#![tactic(auto)]

ghost use Rattle.std.specs.Prelude.{◌≡◌, ◌+◌, ◌%◌, ◌^◌, ◌<◌, ◌≤◌, length};
ghost use Rattle.std.proofs.lemmas.List.Edits.{sets};
ghost use Rattle.slot_spec.specs.Tree.{path, slot_length, tree_length};
ghost use Rattle.slot_spec.specs.Slot.{slot_bytes};
ghost use Rattle.slot_spec.specs.Row.{zero_slot};
ghost use Rattle.word_round_laws.specs.SlotRow.{levels};
ghost use Rattle.word_round_laws.specs.Gather.{slot_starts, full_starts};
ghost use Rattle.word_round_laws.specs.Fill.{cleared};

use bucket_writer::write_in;
use slot_spec::{BUCKET_LENGTH, SLOT_LENGTH, Slot};

// The slot that starts at a byte gets zero bytes: its bucket's part of the tree is lent on.
fn clear_slot(tree: &mut [u8], size: usize, at: usize)
    requires { (length tree.old ≡ tree_length size) × (at + slot_length ≤ length tree.old) × (at < 2 ^ 24) × (at % slot_length ≡ 0) }
    ensures { tree.new ≡ sets tree.old at (slot_bytes zero_slot) }
{
    let a = at / BUCKET_LENGTH * BUCKET_LENGTH;
    let e = a + BUCKET_LENGTH;
    write_in(&mut tree[a..e], (at - a) / SLOT_LENGTH, Slot::default());
}

// The buckets of a leaf's path get zero bytes. Only the full slots are written, by where they start, as the read half found them: the
// others are zero already.
pub fn clear_path(tree: &mut [u8], size: usize, leaf: usize, starts: &[u32])
    requires { (size < levels) × (leaf < 2 ^ size) × (length tree.old ≡ tree_length size) × (starts.now ≡ full_starts tree.old (slot_starts (path size leaf))) }
    ensures { tree.new ≡ cleared tree.old (path size leaf) }
{
    for start in starts {
        clear_slot(tree, size, *start as usize);
    }
}
