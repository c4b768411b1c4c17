// How many rounds and draws a call has.
#![tactic(auto)]

ghost use Rattle.std.specs.Prelude.{◌≡◌, ◌≤◌};
ghost use Rattle.state_spec.specs.Fit.{largest_size};
ghost use Rattle.state_spec.specs.Fetching.{rounds_of, spare_of, draws_of, most_rounds, most_spare, most_draws};

use heights::greatest_height;

// The most fetch rounds of a call, a map's of the largest size, and the most spare draws, a queue's.
pub const MOST_ROUNDS: usize = 33;

pub const MOST_SPARE: usize = 2;

// The most numbers that a call takes of its tape, and the most leaves that it reveals, one for each round.
pub const MOST_DRAWS: usize = 2 * MOST_ROUNDS + MOST_SPARE;

pub const MOST_LEAVES: usize = 2 * MOST_ROUNDS;

// F: the fetch rounds of a call, and as many put rounds.
pub fn rounds_of(structure: u8, size: u8) -> usize
    requires { (1 ≤ size) × (size ≤ largest_size) }
    ensures { (result ≡ rounds_of structure size) × (result ≤ most_rounds) }
{
    match structure {
        1 => 3 * usize::from(greatest_height(usize::from(size))),
        3 => 3 * usize::from(size),
        _ => 1,
    }
}

// The spare draws of a call: those that no round takes.
#[tactic(auto, using(crate::proofs::Spares::one_spare, crate::proofs::Spares::none_spare, crate::proofs::Spares::two_spare))]
pub fn spare_of(structure: u8) -> usize
    ensures { (result ≡ spare_of structure) × (result ≤ most_spare) }
{
    match structure {
        1..=3 => 1,
        _ => 2,
    }
}

// The draws of a call: two for each of the F, and the spare ones.
pub fn draws_of(structure: u8, size: u8) -> usize
    requires { (1 ≤ size) × (size ≤ largest_size) }
    ensures { (result ≡ draws_of structure size) × (result ≤ most_draws) }
{
    2 * rounds_of(structure, size) + spare_of(structure)
}
