// A store's state as lent bytes: its head, and the slots of its waiting places.
#![tactic(auto)]

ghost use Rattle.std.specs.Prelude.{◌≡◌, true, ◌++◌, ◌≤◌, length, drop, IfOk};
ghost use Rattle.lent_bytes_spec.specs.StateBytes.{head_length, head_in, head_bytes, next_key, root_in, ahead_in, key_fits};
ghost use Rattle.call_spec.specs.Reply.{refusal_number};
ghost use Rattle.byte_states.specs.Refusal.{bytes_refusal, core_head};

use call_spec::Refusal;
use fitness::{Head, head_refusal};
use lent_bytes_spec::StateHead;
use slot_spec::{Ahead, Link};
use slot_words::{put_word, word};

pub mod waiting;

// The head of a byte state, from its two words.
pub fn read_head(state: &[u8]) -> StateHead
    requires { head_length ≤ length state.now }
    ensures { result ≡ head_in state.now }
{
    let a = word(state, 0);
    let b = word(state, 8);
    StateHead {
        mark: (a % 256) as u8,
        structure: (a / 256 % 256) as u8,
        size: (a / 65536 % 256) as u8,
        height: (a / 16777216 % 256) as u8,
        entries: (a / 4294967296 % 65536) as u16,
        waiting: (a / 281474976710656) as u16,
        key: (b % 4294967296) as u32,
        tag: (b / 4294967296 % 65536) as u16,
        ahead: (b / 281474976710656) as u16,
    }
}

// The head is written; the slots stay.
pub fn write_head(state: &mut [u8], h: StateHead)
    requires { head_length ≤ length state.old }
    ensures { state.new ≡ head_bytes h ++ drop head_length state.old }
{
    let first = h.mark as u64
        + 256 * (h.structure as u64)
        + 65536 * (h.size as u64)
        + 16777216 * (h.height as u64)
        + 4294967296 * (h.entries as u64)
        + 281474976710656 * (h.waiting as u64);
    let second = h.key as u64 + 4294967296 * (h.tag as u64) + 281474976710656 * (h.ahead as u64);
    put_word(state, 0, first);
    put_word(state, 8, second);
}

// A queue's next unused key, the sum of its root key and its entries: it can be more than a key.
fn next_key(h: StateHead) -> u64
    ensures { result ≡ next_key h }
{
    if h.structure != 4 {
        return 0;
    }
    u64::from(h.key) + u64::from(h.entries)
}

// The root link. An empty queue's root key is no part of it.
pub fn root_of(h: StateHead) -> Link
    ensures { result ≡ root_in h }
{
    let emptied = h.structure == 4 && h.entries == 0;
    Link {
        height: h.height,
        key: if emptied { 0 } else { h.key },
        tag: h.tag,
    }
}

// What is known ahead.
pub fn ahead_of(h: StateHead) -> Ahead
    requires { key_fits h ≡ true }
    ensures { result ≡ ahead_in h }
{
    Ahead {
        key: next_key(h) as u32,
        tag: h.ahead,
    }
}

// The head as the core takes it.
pub fn core_head(h: StateHead) -> Head
    requires { key_fits h ≡ true }
    ensures { result ≡ core_head h }
{
    Head {
        structure: h.structure,
        size: h.size,
        entries: h.entries,
        root: root_of(h),
        ahead: ahead_of(h),
        waiting: h.waiting,
    }
}

// The head as the core takes it, of a state that is open and whose head fits: the causes 1 and 2, but for the slots.
#[tactic(auto, unfolding(crate::specs::Refusal::bytes_refusal, fitness::specs::Refusal::head_refusal))]
pub fn head_of(h: StateHead) -> Result<Head, Refusal>
    ensures number { refusal_number result ≡ bytes_refusal h }
    ensures head { IfOk result (λ head. head ≡ core_head h) }
{
    if h.mark != 0 {
        return Err(Refusal::Closed);
    }
    if u32::try_from(next_key(h)).is_err() {
        return Err(Refusal::Unfit);
    }
    let head = core_head(h);
    head_refusal(h.mark, head)?;
    Ok(head)
}
