// The opening and the calls of the input, up to its end or until a call has closed the store.
ghost use Rattle.std.specs.Prelude.{◌≤◌};
ghost use Rattle.state_spec.specs.Fit.{largest_size};

use super::messages::say_short;
use call_draws::MOST_LEAVES;
use input_calls::next_call;
use state_spec::State;
use walk_input::HEAD_LENGTH;
use walk_spec::Stop;

// The descriptor of the standard input.
const STDIN_FILENO: i32 = 0;

// What a store is opened with.
#[derive(Clone, Copy, PartialEq, Eq, Default)]
pub struct Head {
    pub structure: u8,
    pub size: u8,
}

// Reads the input's first bytes. An input without them has size 0, which every opening refuses.
pub fn read_head() -> Head {
    let mut head = [0u8; HEAD_LENGTH];
    if io::read_full(STDIN_FILENO, &mut head) < HEAD_LENGTH {
        say_short();
        return Head::default();
    }
    Head {
        structure: head[0],
        size: head[1],
    }
}

// The state after the calls of the input, or after the one that closed the store. A proved loop has to end, and nothing says
// that an input does: no run uses up the turns.
pub fn read_calls(opened: State, tree: &mut [u8]) -> State
    requires { (1 ≤ opened.size) × (opened.size ≤ largest_size) }
{
    let mut state = opened;
    for _ in 0..u64::MAX {
        let mut trace = [0u16; MOST_LEAVES];
        match next_call(state, tree, &mut trace) {
            Ok(made) => state = made.state,
            Err(Stop::End) => return state,
            Err(Stop::Short) => {
                say_short();
                return state;
            }
        }
        if state.mark != 0 {
            return state;
        }
    }
    state
}
