// What a closed store holds, item by item: its slots and waiting places numbered by place, the keys and marks of them, the good ones,
// and of these the first of each key.
#![tactic(auto)]

ghost use Rattle.std.specs.Prelude.{◌≡◌, ◌+◌, ◌*◌, ◌≤◌, length};
ghost use Rattle.std.proofs.lemmas.List.Edits.{sets};
ghost use Rattle.slot_spec.specs.Tree.{slot_length};
ghost use Rattle.readout_spec.specs.Seen.{most_items};
ghost use Rattle.survey_laws.specs.Items.{key_in, mark_of, bucket_for, marks_from, keys_from, good_from, heads, cleared};

use merge_sort::key_at;
use slot_fields::key_of;
use slot_spec::{Reading, SLOT_LENGTH};
use slot_words::load;
use slots::reading;

// The reason for which an item is reported if it is not taken: 1 bad, 2 good and so repeated, 0 none. It is the byte that the report gets.
pub const BAD: u8 = 1;

pub const GOOD: u8 = 2;

const SLOTS_IN_BUCKET: usize = 4;

// The mark of an item by what is read there. An empty waiting place is bad.
#[tactic(auto, unfolding(survey_laws::specs::Items::mark_of))]
fn mark_of(r: Reading, in_tree: bool) -> u8
    ensures { result ≡ mark_of in_tree r }
{
    match r {
        Reading::Full(_) => GOOD,
        Reading::Bad => BAD,
        Reading::Empty if in_tree => 0,
        Reading::Empty => BAD,
    }
}

// The bucket that an item's slot is read for. A waiting node's bucket is not asked about: the root's is on every path.
fn bucket_for(in_tree: bool, i: usize) -> usize
    requires { i ≤ most_items }
    ensures { result ≡ bucket_for in_tree i }
{
    if in_tree { i / SLOTS_IN_BUCKET + 1 } else { 1 }
}

// The keys and the marks of slots, those of a tree of that size or those of waiting nodes.
pub fn survey(size: usize, in_tree: bool, slots: &[u8], keys: &mut [u64], marks: &mut [u8])
    requires { (size ≤ 16) × (length slots.now ≡ slot_length * length keys.old) × (length marks.old ≡ length keys.old) × (length keys.old ≤ most_items) }
    ensures { (keys.new ≡ keys_from slots.now (length keys.old) 0) × (marks.new ≡ marks_from in_tree size slots.now (length keys.old) 0) }
{
    for i in 0..keys.len() {
        let x = load(slots, SLOT_LENGTH * i);
        let r = reading(x, size, bucket_for(in_tree, i));
        keys[i] = u64::from(key_of(x));
        marks[i] = mark_of(r, in_tree);
    }
}

// The good items, numbered from `first` on, are put at the start of `order`; how many they are. Not the part that they fill: no clause on
// what a result borrows from can say that the rest of the row stays.
pub fn good_items(marks: &[u8], first: usize, order: &mut [u16]) -> usize
    requires { (length marks.now ≤ length order.old) × (first + length marks.now ≤ most_items) }
    ensures { (result ≤ length marks.now) × (result ≡ length (good_from first marks.now)) × (order.new ≡ sets order.old 0 (good_from first marks.now)) }
{
    let mut n = 0;
    for (i, mark) in marks.iter().enumerate() {
        if *mark == GOOD {
            order[n] = (first + i) as u16;
            n += 1;
        }
    }
    n
}

// Of items in order of keys the first of each key are put at the start of `taken`; how many they are.
pub fn first_of_each(keys: &[u64], order: &[u16], taken: &mut [u16]) -> usize
    requires { length order.now ≤ length taken.old }
    ensures { (result ≤ length order.now) × (result ≡ length (heads (key_in keys.now) order.now)) × (taken.new ≡ sets taken.old 0 (heads (key_in keys.now) order.now)) }
{
    let mut n = 0;
    let mut last = None;
    for item in order {
        let key = key_at(keys, *item);
        let other = last != Some(key);
        if other {
            taken[n] = *item;
            n += 1;
            last = Some(key);
        }
    }
    n
}

// The marks of the items taken are cleared: what is left is reported.
pub fn clear_marks(taken: &[u16], marks: &mut [u8])
    ensures { marks.new ≡ cleared taken.now marks.old }
{
    for item in taken {
        let at = usize::from(*item);
        if at < marks.len() {
            marks[at] = 0;
        }
    }
}
