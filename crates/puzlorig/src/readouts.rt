// Reading out a closed store.
ghost use Rattle.std.specs.Prelude.{◌≡◌};
ghost use Rattle.host_spec.specs.Host.{host_reading, host_read_out};

use byte_states::read_head;
use lent_bytes_spec::{HEAD_LENGTH, STATE_LENGTH};
use readout_core::read_out_slots;
use slot_spec::SLOT_LENGTH;
use store_readout::{check, number_of};

// 18, then as `read_out` has it; see `host_read_out`. The waiting nodes are read where they lie.
pub fn puzlorig_read_out(state: &[u8], tree: &[u8], out: &mut [u8], file: &mut u64) -> u32
    ensures { host_reading result file.new out.new ≡ host_read_out state.now tree.now out.old }
{
    *file = 0;
    if state.len() != STATE_LENGTH {
        return 18;
    }
    let h = read_head(state);
    if let Err(cause) = check(h.mark, h.structure, h.size, h.waiting, tree.len()) {
        return u32::from(number_of(cause));
    }
    let end = HEAD_LENGTH + SLOT_LENGTH * usize::from(h.waiting);
    match read_out_slots(usize::from(h.size), tree, &state[HEAD_LENGTH..end], out) {
        Ok(length) => {
            *file = length as u64;
            0
        }
        Err(cause) => u32::from(number_of(cause)),
    }
}
