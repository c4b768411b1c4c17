// The write half of a round: the path's buckets are filled from the leaf up, and what is left waits. One pass over the slots does
// it: in key order, each goes to the lowest bucket of the path that its own path passes and that has room.
#![tactic(auto)]

ghost use Rattle.std.specs.Prelude.{◌≡◌, ◌+◌, ◌*◌, ◌^◌, ◌<◌, ◌≤◌, length, take, is_some};
ghost use Rattle.std.specs.Option.{unwrap_or};
ghost use Rattle.std.proofs.lemmas.List.Edits.{sets};
ghost use Rattle.slot_spec.specs.Tree.{path, path_bucket, bucket_start, tree_length};
ghost use Rattle.slot_spec.specs.Slot.{slot_bytes};
ghost use Rattle.word_round_laws.specs.SlotRow.{places, row_length, slots_in, Blank, levels, Leaves};
ghost use Rattle.word_round_laws.specs.Stash.{without};
ghost use Rattle.word_round_laws.specs.Gather.{slot_starts, full_starts};
ghost use Rattle.eviction.specs.Settle.{PathFilled, Joint, Settled};

use bucket_writer::write_in;
use path_clearing::clear_path;
use path_levels::{LEVELS, meet, start_at};
use path_room::room_from;
use slot_fields::tag_of;
use slot_row::{clear, get, put};
use slot_spec::{BUCKET_LENGTH, Slot};

// A slot is stored as number j of the path's bucket at a level: the bucket's part of the tree is lent on.
fn store_slot(tree: &mut [u8], size: usize, leaf: usize, level: usize, j: usize, x: Slot)
    requires { (size < levels) × (leaf < 2 ^ size) × (length tree.old ≡ tree_length size) × (level ≤ size) × (j < 4) }
    ensures { tree.new ≡ sets tree.old (bucket_start (path_bucket size leaf level) + 32 * j) (slot_bytes x) }
{
    let a = start_at(size, leaf, level);
    let e = a + BUCKET_LENGTH;
    write_in(&mut tree[a..e], j, x);
}

// The path of a leaf is filled by the first m slots of the row but number out, lowest key first. Those that find no room stay, in the
// first places, and the others are emptied; how many stay.
fn fill_path(
    w: &mut [u8],
    m: usize,
    out: usize,
    tree: &mut [u8],
    size: usize,
    leaf: usize,
    starts: &[u32],
) -> usize
    requires { (length w.old ≡ row_length) × (Blank m w.old) × (m ≤ places) × (size < levels) × (leaf < 2 ^ size) × (Leaves size (take m (slots_in w.old))) × (length tree.old ≡ tree_length size) × (starts.now ≡ full_starts tree.old (slot_starts (path size leaf))) }
    ensures { PathFilled size leaf (without out (take m (slots_in w.old))) m tree.old w.new tree.new result }
{
    clear_path(tree, size, leaf, starts);
    let mut used = [0usize; LEVELS];
    let mut kept = 0;
    for i in 0..m {
        let x = get(w, i);
        clear(w, i);
        if i != out {
            let level = room_from(&used, size, meet(leaf, usize::from(tag_of(x))));
            if level <= size {
                let j = used[level];
                store_slot(tree, size, leaf, level, j, x);
                used[level] = j + 1;
            } else {
                put(w, kept, x);
                kept += 1;
            }
        }
    }
    kept
}

// The write half of a round, of the m slots that the read half joined in the row: all but a wanted one, in the place `out`, fill the path,
// and what is left waits in the row; how many those are. The path's full slots start at these bytes, as the read half found them.
pub fn settle(
    w: &mut [u8],
    m: usize,
    out: Option<usize>,
    tree: &mut [u8],
    size: usize,
    leaf: usize,
    starts: &[u32],
) -> usize
    requires { Joint size leaf m (is_some out) (unwrap_or out 0) w.old tree.old × (starts.now ≡ full_starts tree.old (slot_starts (path size leaf))) }
    ensures { Settled size leaf m (is_some out) (unwrap_or out 0) w.old tree.old w.new tree.new result }
{
    fill_path(w, m, out.unwrap_or(m), tree, size, leaf, starts)
}
