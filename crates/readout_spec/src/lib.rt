// Reading out a closed store (document 02, change 3): definitions.
#![tactic(auto)]

use state_spec::PLACES;

// The most slots and waiting places that a store has: those of the largest tree, of size 8, and of a state.
pub const MOST_SLOTS: usize = 4 * ((1 << 9) - 1);

pub const MOST_ITEMS: usize = MOST_SLOTS + PLACES;

// The widths of the file's numbers in bytes, and those of a line of the index and of the report.
pub const COUNT_WIDTH: usize = 2;

pub const KEY_WIDTH: usize = 4;

pub const OFFSET_WIDTH: usize = 4;

pub const VALUE_WIDTH: usize = 8;

pub const PLACE_WIDTH: usize = 4;

pub const REASON_WIDTH: usize = 1;

pub const INDEX_WIDTH: usize = KEY_WIDTH + OFFSET_WIDTH;

pub const REPORT_WIDTH: usize = PLACE_WIDTH + REASON_WIDTH;

// Why a store is not read out, with the number that a host gets.
#[derive(Clone, Copy, PartialEq, Eq)]
pub enum NoFile {
    // Structure or size is unknown, or more nodes wait than there are places.
    Unfit = 2,
    TreeLength = 3,
    // The mark is neither 8 nor 9.
    NotClosed = 14,
    ShortBuffer = 15,
}
