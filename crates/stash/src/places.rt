// One place of a state: loaded into the row, and saved from it.
ghost use Rattle.std.specs.Prelude.{◌≡◌, ◌≤◌, ◌<◌, length, get_or};
ghost use Rattle.state_spec.specs.Fit.{no_place};
ghost use Rattle.call_spec.specs.Store.{waiting_places};
ghost use Rattle.word_round_laws.specs.SlotRow.{places, row_length};
ghost use Rattle.stash_laws.specs.Waiting.{waiting_in, Holds};
ghost use Rattle.stash.specs.Stash.{good_from, PlaceLoaded};

use super::words_of;
use slot_fields::node_of;
use slot_row::{get, put};
use state_places::{no_place, place_good};
use state_spec::Place;

// Whether a used place is good and its key at least `least`, one more than the key before it.
fn used_fits(p: Place, size: usize, least: u64) -> bool
    requires { size ≤ 16 }
    ensures { result ≡ good_from size least p }
{
    place_good(size, p) && least <= p.node.key as u64
}

// A used place is asked whether it fits; if so its node is put into slot i of the row.
pub fn load_place(w: &mut [u8], i: usize, p: Place, size: usize, least: u64) -> bool
    requires { (length w.old ≡ row_length) × ((i < places) × (size ≤ 16)) }
    ensures { (result ≡ good_from size least p) × PlaceLoaded i p w.old w.new result }
{
    if !used_fits(p, size, least) {
        return false;
    }
    put(w, i, words_of(p.node));
    true
}

// Place i as it is saved, where n nodes wait in the row.
pub fn saved_place(w: &[u8], n: usize, i: usize) -> Place
    requires { Holds n w.now × (i < places) }
    ensures { result ≡ get_or (waiting_places (waiting_in n w.now)) i no_place }
{
    if n <= i {
        return no_place();
    }
    let node = node_of(get(w, i));
    Place { full: true, node }
}
