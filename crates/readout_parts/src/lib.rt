// The parts of the file that a closed store is read out to, each written into a part of the output buffer that has just its length.
#![tactic(auto)]

ghost use Rattle.std.specs.Prelude.{◌≡◌, ◌++◌, map, ◌-◌, ◌*◌, ◌≤◌, length};
ghost use Rattle.slot_spec.specs.LittleEndian.{bytes};
ghost use Rattle.slot_spec.specs.Slot.{slot_bytes};
ghost use Rattle.readout_spec.specs.Seen.{most_items};
ghost use Rattle.readout_spec.specs.File.{index_width, value_width, report_width, index, values_part, report_part, values_start};
ghost use Rattle.survey_laws.specs.Items.{key_in, item_bytes, value_in, omitted_by};

use merge_sort::key_at;
use readout_spec::{COUNT_WIDTH, INDEX_WIDTH, KEY_WIDTH, PLACE_WIDTH, REPORT_WIDTH, VALUE_WIDTH};
use slot_fields::node_of;
use slot_spec::{SLOT_LENGTH, Slot};
use slot_words::load;

// A number in as many bytes as the part has, little-endian.
pub fn put_number(part: &mut [u8], n: u64)
    ensures { part.new ≡ bytes (length part.old) n }
{
    let mut rest = n;
    for byte in part.iter_mut() {
        *byte = (rest % 256) as u8;
        rest /= 256;
    }
}

// Two numbers, the first in the given width and the second in what is left of the part.
fn put_pair(part: &mut [u8], width: usize, first: u64, second: u64)
    requires { width ≤ length part.old }
    ensures { part.new ≡ bytes width first ++ bytes (length part.old - width) second }
{
    put_number(&mut part[..width], first);
    put_number(&mut part[width..], second);
}

// The bytes of an item as words: one of the tree, or a waiting one; zero for a number past them.
fn load_item(tree: &[u8], waiting: &[u8], i: u16) -> Slot
    ensures { slot_bytes result ≡ item_bytes tree.now waiting.now i }
{
    let at = usize::from(i);
    let slots = tree.len() / SLOT_LENGTH;
    if at < slots {
        return load(tree, SLOT_LENGTH * at);
    }
    let waits = at - slots;
    if waits < waiting.len() / SLOT_LENGTH {
        return load(waiting, SLOT_LENGTH * waits);
    }
    Slot::default()
}

#[tactic(auto, unfolding(slot_spec::specs::Slot::node_of))]
fn item_value(tree: &[u8], waiting: &[u8], i: u16) -> u64
    ensures { result ≡ value_in tree.now waiting.now i }
{
    node_of(load_item(tree, waiting, i)).value
}

// The keys of the items taken, each with its value's offset.
pub fn put_index(part: &mut [u8], keys: &[u64], taken: &[u16])
    requires { (length part.old ≡ index_width * length taken.now) × (length taken.now ≤ most_items) }
    ensures { part.new ≡ index (values_start (length taken.now)) (map (key_in keys.now) taken.now) }
{
    let start = COUNT_WIDTH + INDEX_WIDTH * taken.len();
    for (i, item) in taken.iter().enumerate() {
        let at = INDEX_WIDTH * i;
        let offset = start + VALUE_WIDTH * i;
        let key = key_at(keys, *item);
        put_pair(
            &mut part[at..at + INDEX_WIDTH],
            KEY_WIDTH,
            key,
            offset as u64,
        );
    }
}

// The values of the items taken.
pub fn put_values(part: &mut [u8], tree: &[u8], waiting: &[u8], taken: &[u16])
    requires { length part.old ≡ value_width * length taken.now }
    ensures { part.new ≡ values_part (map (value_in tree.now waiting.now) taken.now) }
{
    for (i, item) in taken.iter().enumerate() {
        let at = VALUE_WIDTH * i;
        let value = item_value(tree, waiting, *item);
        put_number(&mut part[at..at + VALUE_WIDTH], value);
    }
}

// How many items are reported: those with a mark.
pub fn reported(marks: &[u8]) -> usize
    ensures { (result ≡ length (omitted_by 0 marks.now)) × (result ≤ length marks.now) }
{
    let mut count = 0;
    for mark in marks {
        if *mark != 0 {
            count += 1;
        }
    }
    count
}

// The report: the place and the reason of each item with a mark.
pub fn put_report(part: &mut [u8], marks: &[u8])
    requires { (length part.old ≡ report_width * length (omitted_by 0 marks.now)) × (length marks.now ≤ most_items) }
    ensures { part.new ≡ report_part (omitted_by 0 marks.now) }
{
    let mut at = 0;
    for (i, mark) in marks.iter().enumerate() {
        if *mark != 0 {
            let line = &mut part[at..at + REPORT_WIDTH];
            put_pair(
                line,
                PLACE_WIDTH,
                (SLOT_LENGTH * i) as u64,
                u64::from(*mark),
            );
            at += REPORT_WIDTH;
        }
    }
}
