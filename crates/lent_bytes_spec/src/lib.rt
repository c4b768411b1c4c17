// What a C host lends as bytes: a store's state, tapes and traces. Definitions.
#![tactic(auto)]

use slot_spec::SLOT_LENGTH;
use state_spec::PLACES;

// A byte state: its head, then the slots of its waiting places.
pub const HEAD_LENGTH: usize = 16;

pub const STATE_LENGTH: usize = HEAD_LENGTH + SLOT_LENGTH * PLACES;

// A number of a tape or of a trace has two bytes.
pub const NUMBER_LENGTH: usize = 2;

// The head of a byte state, in the order of its bytes: the closed mark, structure and size, the root link's height, how many entries
// there are and how many nodes wait, the root link's key and tag, and the tag drawn ahead.
#[derive(Clone, Copy)]
pub struct StateHead {
    pub mark: u8,
    pub structure: u8,
    pub size: u8,
    pub height: u8,
    pub entries: u16,
    pub waiting: u16,
    pub key: u32,
    pub tag: u16,
    pub ahead: u16,
}
