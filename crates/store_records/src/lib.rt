// Closed stores as records, for the programs that test and time reading out: tests/README.md has a record's layout.
#![tactic(auto)]

ghost use Rattle.std.specs.Prelude.{◌≤◌, IfOk};
ghost use Rattle.io.specs.Counts.{IsPrefixLen};
ghost use Rattle.store_records.specs.Records.{most_bytes};

use slot_fields::node_of;
use slot_spec::{Ahead, Link, SLOT_LENGTH, Slot};
use slot_words::load;
use state_spec::{PLACES, Place, State};
use std::array;

// The descriptor of the standard input.
const STDIN_FILENO: i32 = 0;

// The numbers of a record, and then its waiting places.
const NUMBERS_LENGTH: usize = 30;

// Where the numbers after the root link start.
const AHEAD_START: usize = 14;

// What stands before a record's tree.
pub const HEAD_LENGTH: usize = NUMBERS_LENGTH + PLACES * SLOT_LENGTH;

// The most bytes of a tree, and of an output buffer.
pub const MOST_BYTES: usize = 65536;

// Why no record came: the input does not hold it whole, or its tree or its output buffer has too many bytes.
#[derive(Clone, Copy, PartialEq, Eq)]
pub enum NoRecord {
    Short,
    Long,
}

// The lengths of a record's tree and of its output buffer.
#[derive(Clone, Copy, PartialEq, Eq)]
pub struct Lengths {
    pub tree: usize,
    pub room: usize,
}

// The state's place that stands in a slot.
fn place_of(x: Slot) -> Place {
    Place {
        full: x.a % 256 == 1,
        node: node_of(x),
    }
}

fn places_of(head: &[u8; HEAD_LENGTH]) -> [Place; PLACES] {
    array::from_fn(|i| place_of(load(head, NUMBERS_LENGTH + SLOT_LENGTH * i)))
}

// The state of a record. Its numbers are the first words.
pub fn state_of(head: &[u8; HEAD_LENGTH]) -> State {
    let x = load(head, 0);
    let root = Link {
        height: (x.a / 16777216 % 256) as u8,
        key: (x.b % 4294967296) as u32,
        tag: (x.b / 4294967296 % 65536) as u16,
    };
    let y = load(head, AHEAD_START);
    let ahead = Ahead {
        key: (y.a % 4294967296) as u32,
        tag: (y.a / 4294967296 % 65536) as u16,
    };
    State {
        mark: (x.a % 256) as u8,
        structure: (x.a / 256 % 256) as u8,
        size: (x.a / 65536 % 256) as u8,
        entries: (x.a / 4294967296 % 65536) as u16,
        root,
        ahead,
        count: (x.a / 281474976710656) as u16,
        places: places_of(head),
    }
}

// Reads a tree of so many bytes to the start of `space`.
fn read_tree(lengths: Lengths, space: &mut [u8]) -> Result<Lengths, NoRecord>
    ensures { IfOk result (λ l. IsPrefixLen l.tree space.new × (l.room ≤ most_bytes)) }
{
    let Lengths { tree, room } = lengths;
    if space.len() < tree || MOST_BYTES < room {
        return Err(NoRecord::Long);
    }
    if io::read_full(STDIN_FILENO, &mut space[..tree]) < tree {
        return Err(NoRecord::Short);
    }
    Ok(lengths)
}

// Reads a record from the standard input: what stands before its tree into `head`, and its tree to the start of `space`.
pub fn read_record(head: &mut [u8; HEAD_LENGTH], space: &mut [u8]) -> Result<Lengths, NoRecord>
    ensures { IfOk result (λ l. IsPrefixLen l.tree space.new × (l.room ≤ most_bytes)) }
{
    if io::read_full(STDIN_FILENO, head) < HEAD_LENGTH {
        return Err(NoRecord::Short);
    }
    let lengths = load(head, AHEAD_START).b;
    let tree = (lengths % 4294967296) as usize;
    let room = (lengths / 4294967296) as usize;
    read_tree(Lengths { tree, room }, space)
}
