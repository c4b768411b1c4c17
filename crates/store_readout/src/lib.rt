// Reading out a closed store.
#![tactic(auto)]

ghost use Rattle.std.specs.Prelude.{◌≡◌, length};
ghost use Rattle.slot_spec.specs.Tree.{slot_length};
ghost use Rattle.slot_spec.specs.Slot.{Ranged};
ghost use Rattle.readout_spec.specs.ReadOut.{closed_mark, number_of, read_out_leaving, to_read_out, read_out};
ghost use Rattle.lent_bytes_spec.specs.StateBytes.{place_bytes};
ghost use Rattle.store_readout.specs.Refusal.{known_numbers, number_if, refusal_of};

use fitness::{LARGEST_SIZE, LARGEST_STRUCTURE, in_range};
use readout_core::read_out_slots;
use readout_spec::NoFile;
use slot_fields::slot_of;
use slot_spec::{SLOT_LENGTH, Slot};
use slot_words::store;
use state_spec::{PLACES, Place, State};
use tree_paths::tree_length;

// The bytes of all waiting places as slots.
const WAITING_LENGTH: usize = SLOT_LENGTH * PLACES;

// The number that a host gets for a store that is not read out.
pub fn number_of(cause: NoFile) -> u8
    ensures { result ≡ number_of cause }
{
    cause as u8
}

// Whether a store was closed by damage, 8, or overflow, 9.
fn closed_mark(mark: u8) -> bool
    ensures { result ≡ closed_mark mark }
{
    matches!(mark, 8 | 9)
}

// Whether structure and size are ones that stores have, and no more nodes wait than there are places.
fn is_known(structure: u8, size: u8, count: u16) -> bool
    ensures { result ≡ known_numbers structure size count }
{
    in_range(u64::from(structure), LARGEST_STRUCTURE)
        && in_range(u64::from(size), LARGEST_SIZE)
        && usize::from(count) <= PLACES
}

// The checks of a store before its nodes are looked at, by the numbers of its state and its tree's length.
#[tactic(auto, unfolding(crate::specs::Refusal::refusal_of))]
pub fn check(mark: u8, structure: u8, size: u8, count: u16, length: usize) -> Result<(), NoFile>
    ensures { number_if result ≡ refusal_of mark structure size count length }
{
    if !closed_mark(mark) {
        return Err(NoFile::NotClosed);
    }
    if !is_known(structure, size, count) {
        return Err(NoFile::Unfit);
    }
    if length != tree_length(usize::from(size)) {
        return Err(NoFile::TreeLength);
    }
    Ok(())
}

// A waiting place as the bytes of a slot: an empty one is all zero. A node's numbers are within their widths.
fn put_place(part: &mut [u8], p: Place)
    requires { length part.old ≡ slot_length }
    ensures { Ranged p.node × (part.new ≡ place_bytes p) }
{
    let slot = if p.full {
        slot_of(p.node)
    } else {
        Slot::default()
    };
    store(part, 0, slot);
}

// Reads out a closed store into a lent buffer; see `read_out` for every case. The loop over the waiting places stands here, since a function
// that is handed the state is handed a copy of it.
pub fn read_out(state: State, tree: &[u8], out: &mut [u8]) -> Result<usize, NoFile>
    ensures { read_out_leaving (to_read_out result) out.new ≡ read_out state tree.now out.old }
{
    check(
        state.mark,
        state.structure,
        state.size,
        state.count,
        tree.len(),
    )?;
    let n = usize::from(state.count);
    let mut waiting = [0u8; WAITING_LENGTH];
    for i in 0..n {
        let at = SLOT_LENGTH * i;
        put_place(&mut waiting[at..at + SLOT_LENGTH], state.places[i]);
    }
    read_out_slots(
        usize::from(state.size),
        tree,
        &waiting[..SLOT_LENGTH * n],
        out,
    )
}
