// The slots of the waiting places, asked whether they fit.
ghost use Rattle.std.specs.Prelude.{◌≡◌, ◌&&◌, ◌*◌, ◌%◌, ◌≤◌, ◌<◌, length};
ghost use Rattle.slot_spec.specs.Tree.{slot_length};
ghost use Rattle.slot_spec.specs.Slot.{all_zero};
ghost use Rattle.state_spec.specs.Fit.{places, places_fit};
ghost use Rattle.round_spec.specs.Round.{stash_limit};
ghost use Rattle.lent_bytes_spec.specs.StateBytes.{place_in, slots_sound};
ghost use Rattle.stash.specs.Stash.{used_fit};
ghost use Rattle.byte_states.specs.PlacesFit.{slot_at, state_of, least_after};

use lent_bytes_spec::StateHead;
use slot_spec::{Reading, SLOT_LENGTH};
use slot_words::load;
use slots::reading;

// Used slot i is asked whether it is good for a node and its key at least `least`: one more than its key.
fn least_after(slots: &[u8], i: usize, size: usize, least: u64) -> Option<u64>
    requires { (i < places) × ((length slots.now ≡ slot_length * places) × (size ≤ 16)) }
    ensures { result ≡ least_after size least (place_in (slot_at slots.now i)) }
{
    let x = load(slots, SLOT_LENGTH * i);
    let Reading::Full(n) = reading(x, size, 1) else {
        return None;
    };
    let key = u64::from(n.key);
    if key < least {
        return None;
    }
    Some(key + 1)
}

// Whether the used slots fit, one after another.
fn used_fit(h: StateHead, slots: &[u8]) -> bool
    requires { (h.waiting ≤ stash_limit) × ((length slots.now ≡ slot_length * places) × (h.size ≤ 16)) }
    ensures { result ≡ used_fit (state_of h slots.now) }
{
    let mut least = 0;
    for i in 0..usize::from(h.waiting) {
        let Some(next) = least_after(slots, i, usize::from(h.size), least) else {
            return false;
        };
        least = next;
    }
    true
}

// Whether slots are all zero bytes: the digits of all first words together, of all second ones and so on, are tested once, in the end.
// Two slots a turn, counted by hand: what a turn costs does not hang then on where the compiler puts the loop.
fn is_blank(slots: &[u8]) -> bool
    requires { (length slots.now ≤ slot_length * places) × (length slots.now % slot_length ≡ 0) }
    ensures { result ≡ all_zero slots.now }
{
    let mut first: u64 = 0;
    let mut second: u64 = 0;
    let mut third: u64 = 0;
    let mut fourth: u64 = 0;
    let mut a = 0;
    while a + SLOT_LENGTH < slots.len() {
        let x = load(slots, a);
        let y = load(slots, a + SLOT_LENGTH);
        first = first | x.a | y.a;
        second = second | x.b | y.b;
        third = third | x.c | y.c;
        fourth = fourth | x.d | y.d;
        a += 2 * SLOT_LENGTH;
    }
    if slots.len() <= a {
        return first | second | third | fourth == 0;
    }
    let z = load(slots, a);
    (first | z.a) | (second | z.b) | (third | z.c) | (fourth | z.d) == 0
}

// Whether the slots of a state with that head fit: the used ones as places, the others empty.
pub fn places_fit(h: StateHead, slots: &[u8]) -> bool
    requires { (h.waiting ≤ stash_limit) × ((length slots.now ≡ slot_length * places) × (h.size ≤ 16)) }
    ensures { result ≡ (slots_sound places slots.now && places_fit (state_of h slots.now)) }
{
    used_fit(h, slots) && is_blank(&slots[SLOT_LENGTH * usize::from(h.waiting)..])
}
