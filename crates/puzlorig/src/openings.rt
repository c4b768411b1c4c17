// Opening a store.
ghost use Rattle.std.specs.Prelude.{◌≡◌, length};
ghost use Rattle.state_spec.specs.Opening.{empty};
ghost use Rattle.lent_bytes_spec.specs.StateBytes.{state_length, state_bytes};
ghost use Rattle.host_spec.specs.Host.{host_opening, host_opened};

use byte_states::write_head;
use lent_bytes_spec::{STATE_LENGTH, StateHead};
use opening::{check, clear, number_of};

// A byte state with no entries and none waiting.
fn write_empty(state: &mut [u8], mark: u8, structure: u8, size: u8)
    requires { length state.old ≡ state_length }
    ensures { state.new ≡ state_bytes (empty mark structure size) }
{
    state.fill(0);
    let head = StateHead {
        mark,
        structure,
        size,
        height: 0,
        entries: 0,
        waiting: 0,
        key: 0,
        tag: 0,
        ahead: 0,
    };
    write_head(state, head);
}

// 18, then as `opened` has it; see `host_opened`.
pub fn puzlorig_open(structure: u64, size: u64, state: &mut [u8], tree: &mut [u8]) -> u32
    ensures { host_opening result state.new tree.new ≡ host_opened structure size state.old tree.old }
{
    if state.len() != STATE_LENGTH {
        return 18;
    }
    if let Err(cause) = check(structure, size, tree.len()) {
        let number = number_of(cause);
        write_empty(state, number, 0, 0);
        return u32::from(number);
    }
    clear(tree);
    write_empty(state, 0, structure as u8, size as u8);
    0
}
