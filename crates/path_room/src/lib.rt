// Room on a path: the first level whose bucket has a slot left.
#![tactic(auto)]

ghost use Rattle.std.specs.Prelude.{◌≡◌, ◌+◌, ◌<◌, ◌≤◌, take};
ghost use Rattle.word_round_laws.specs.SlotRow.{levels};
ghost use Rattle.word_round_laws.specs.Fill.{room_from};

use path_levels::{BUCKET_SLOTS, LEVELS};

// The first level from a given one up whose bucket has room, of the numbers of slots that are used at each; size + 1 if none has.
pub fn room_from(used: &[usize; LEVELS], size: usize, from: usize) -> usize
    requires { (size < levels) × (from ≤ size) }
    ensures { result ≡ room_from from (take (size + 1) used.now) }
{
    for level in from..size + 1 {
        if used[level] < BUCKET_SLOTS {
            return level;
        }
    }
    size + 1
}
