// Reading out, over a tree's bytes and the slots of waiting nodes: the items and their marks, those that are taken, the file.
#![tactic(auto)]

ghost use Rattle.std.specs.Prelude.{◌≡◌, ◌+◌, ◌*◌, ◌≤◌, length};
ghost use Rattle.std.proofs.lemmas.List.Edits.{sets};
ghost use Rattle.slot_spec.specs.Tree.{slot_length};
ghost use Rattle.readout_spec.specs.Seen.{most_items};
ghost use Rattle.readout_spec.specs.ReadOut.{read_out_leaving, to_read_out};
ghost use Rattle.survey_laws.specs.Items.{slots_in, good_order, first_sorted, taken_items, cleared, all_keys, all_marks, items_file, slots_file, fitting};

use merge_sort::sort;
use readout_parts::{put_index, put_number, put_report, put_values, reported};
use readout_spec::{COUNT_WIDTH, INDEX_WIDTH, MOST_ITEMS, NoFile, REPORT_WIDTH, VALUE_WIDTH};
use slot_spec::SLOT_LENGTH;
use store_survey::{clear_marks, first_of_each, good_items, survey};

// The keys and the marks of all items: the tree's slots, then those of the waiting nodes.
fn survey_all(size: usize, tree: &[u8], waiting: &[u8], keys: &mut [u64], marks: &mut [u8])
    requires { (size ≤ 16) × (length tree.now ≡ slot_length * slots_in tree.now) × (length waiting.now ≡ slot_length * slots_in waiting.now) × (length keys.old ≡ slots_in tree.now + slots_in waiting.now) × (length marks.old ≡ length keys.old) × (length keys.old ≤ most_items) }
    ensures { (keys.new ≡ all_keys tree.now waiting.now) × (marks.new ≡ all_marks size tree.now waiting.now) }
{
    let slots = tree.len() / SLOT_LENGTH;
    survey(size, true, tree, &mut keys[..slots], &mut marks[..slots]);
    survey(
        size,
        false,
        waiting,
        &mut keys[slots..],
        &mut marks[slots..],
    );
}

// The good items, the waiting ones first, are put at the start of `order`; how many they are.
fn good_order(marks: &[u8], slots: usize, order: &mut [u16]) -> usize
    requires { (slots ≤ length marks.now) × (length marks.now ≤ length order.old) × (length marks.now ≤ most_items) }
    ensures { (result ≤ length marks.now) × (result ≡ length (good_order slots marks.now)) × (order.new ≡ sets order.old 0 (good_order slots marks.now)) }
{
    let waiting = good_items(&marks[slots..], slots, order);
    waiting + good_items(&marks[..slots], 0, &mut order[waiting..])
}

// Good items are put in order of keys, the first of each key at the start of `taken`, and the marks of those cleared; how many they are.
fn take_sorted(keys: &[u64], order: &mut [u16], marks: &mut [u8], taken: &mut [u16]) -> usize
    requires { (length order.old ≤ most_items) × (length order.old ≤ length taken.old) }
    ensures { (result ≤ length order.old) × (result ≡ length (first_sorted keys.now order.old)) × (taken.new ≡ sets taken.old 0 (first_sorted keys.now order.old)) × (marks.new ≡ cleared (first_sorted keys.now order.old) marks.old) }
{
    sort(keys, order);
    let count = first_of_each(keys, order, taken);
    clear_marks(&taken[..count], marks);
    count
}

// The items that are taken are put at the start of `taken`, and their marks cleared; how many they are.
fn take_items(keys: &[u64], slots: usize, marks: &mut [u8], taken: &mut [u16]) -> usize
    requires { (slots ≤ length marks.old) × (length marks.old ≤ most_items) × (most_items ≤ length taken.old) }
    ensures { (result ≤ length marks.old) × (result ≡ length (taken_items slots keys.now marks.old)) × (taken.new ≡ sets taken.old 0 (taken_items slots keys.now marks.old)) × (marks.new ≡ cleared (taken_items slots keys.now marks.old) marks.old) }
{
    let mut order = [0u16; MOST_ITEMS];
    let good = good_order(marks, slots, &mut order);
    take_sorted(keys, &mut order[..good], marks, taken)
}

// The file of the items taken and the marks left, or none where the buffer is too short for it.
fn write_file(
    tree: &[u8],
    waiting: &[u8],
    keys: &[u64],
    taken: &[u16],
    marks: &[u8],
    out: &mut [u8],
) -> Result<usize, NoFile>
    requires { (length taken.now ≤ most_items) × (length marks.now ≤ most_items) }
    ensures { read_out_leaving (to_read_out result) out.new ≡ fitting (items_file tree.now waiting.now keys.now taken.now marks.now) out.old }
{
    let values = COUNT_WIDTH + INDEX_WIDTH * taken.len();
    let report = values + VALUE_WIDTH * taken.len();
    let end = report + REPORT_WIDTH * reported(marks);
    if out.len() < end {
        return Err(NoFile::ShortBuffer);
    }
    put_number(&mut out[..COUNT_WIDTH], taken.len() as u64);
    put_index(&mut out[COUNT_WIDTH..values], keys, taken);
    put_values(&mut out[values..report], tree, waiting, taken);
    put_report(&mut out[report..end], marks);
    Ok(end)
}

// Reads out a tree of that size and the slots of the waiting nodes.
pub fn read_out_slots(
    size: usize,
    tree: &[u8],
    waiting: &[u8],
    out: &mut [u8],
) -> Result<usize, NoFile>
    requires { (size ≤ 16) × (length tree.now ≡ slot_length * slots_in tree.now) × (length waiting.now ≡ slot_length * slots_in waiting.now) × (slots_in tree.now + slots_in waiting.now ≤ most_items) }
    ensures { read_out_leaving (to_read_out result) out.new ≡ fitting (slots_file size tree.now waiting.now) out.old }
{
    let slots = tree.len() / SLOT_LENGTH;
    let n = slots + waiting.len() / SLOT_LENGTH;
    let mut keys = [0u64; MOST_ITEMS];
    let mut marks = [0u8; MOST_ITEMS];
    let mut taken = [0u16; MOST_ITEMS];
    let keys = &mut keys[..n];
    let marks = &mut marks[..n];
    survey_all(size, tree, waiting, keys, marks);
    let count = take_items(keys, slots, marks, &mut taken);
    write_file(tree, waiting, keys, &taken[..count], marks, out)
}
