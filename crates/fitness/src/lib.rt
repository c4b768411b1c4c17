// Whether the head of a state fits: each cause of document 01's list but those of its places.
#![tactic(auto)]

ghost use Rattle.std.specs.Prelude.{◌≡◌, ◌≤◌};
ghost use Rattle.state_spec.specs.Fit.{zero_link, root_good, ahead_good, in_range, head_fits};
ghost use Rattle.call_spec.specs.Reply.{refusal_number};
ghost use Rattle.fitness.specs.Refusal.{head_refusal};

use call_spec::Refusal;
use heights::shape_exists;
use round_close::LIMIT;
use slot_spec::{Ahead, Link};
use tree_paths::leaves;

// Structures are numbered from 1: map, stack, heap, queue. Sizes are 1 to 8.
pub const LARGEST_STRUCTURE: u8 = 4;

pub const LARGEST_SIZE: u8 = 8;

// The head of a state: all of it but the mark and the places. Structure and size stay numbers: `call` takes any state.
#[derive(Clone, Copy)]
pub struct Head {
    pub structure: u8,
    pub size: u8,
    pub entries: u16,
    pub root: Link,
    pub ahead: Ahead,
    pub waiting: u16,
}

// A number from 1 on, up to a greatest. It is asked wide: a C host's numbers are not cut to a byte.
pub fn in_range(n: u64, most: u8) -> bool
    ensures { result ≡ in_range n most }
{
    0 < n && n <= u64::from(most)
}

fn zero_link(l: Link) -> bool
    ensures { result ≡ zero_link l }
{
    l.height == 0 && l.key == 0 && l.tag == 0
}

// A queue's key and entries are added wide: the sum can be more than a key.
#[tactic(auto, unfolding(state_spec::specs::Fit::root_good))]
fn root_good(structure: u8, entries: u16, next: u32, root: Link) -> bool
    ensures { result ≡ root_good structure entries next root }
{
    if entries == 0 {
        return zero_link(root);
    }
    match structure {
        1 => shape_exists(entries, root.height),
        2 => root.height == 1 && root.key == u32::from(entries),
        4 => root.height == 1 && u64::from(root.key) + u64::from(entries) == u64::from(next),
        _ => root.height == 1 && root.key == 1,
    }
}

#[tactic(auto, unfolding(state_spec::specs::Fit::ahead_good))]
fn ahead_good(structure: u8, size: usize, entries: u16, ahead: Ahead) -> bool
    requires { size ≤ 16 }
    ensures { result ≡ ahead_good structure size entries ahead }
{
    if structure != 4 {
        return ahead.key == 0 && ahead.tag == 0;
    }
    if entries == 0 {
        return ahead.tag == 0;
    }
    usize::from(ahead.tag) < leaves(size)
}

// Whether a state fits, its places not asked about: `call` asks about those.
#[tactic(auto, unfolding(state_spec::specs::Fit::head_fits))]
fn head_fits(head: Head) -> bool
    ensures { result ≡ head_fits head.structure head.size head.entries head.waiting head.root head.ahead }
{
    let size = usize::from(head.size);
    in_range(u64::from(head.structure), LARGEST_STRUCTURE)
        && in_range(u64::from(head.size), LARGEST_SIZE)
        && usize::from(head.entries) < leaves(size)
        && usize::from(head.waiting) <= LIMIT
        && usize::from(head.root.tag) < leaves(size)
        && root_good(head.structure, head.entries, head.ahead.key, head.root)
        && ahead_good(head.structure, size, head.entries, head.ahead)
}

// The first of the causes 1 and 2 that is met, but for the places.
#[tactic(auto, unfolding(crate::specs::Refusal::head_refusal))]
pub fn head_refusal(mark: u8, head: Head) -> Result<(), Refusal>
    ensures { refusal_number result ≡ head_refusal mark head.structure head.size head.entries head.waiting head.root head.ahead }
{
    if mark != 0 {
        return Err(Refusal::Closed);
    }
    if !head_fits(head) {
        return Err(Refusal::Unfit);
    }
    Ok(())
}
