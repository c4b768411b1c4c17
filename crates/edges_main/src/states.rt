// The state of a case.
ghost use Rattle.std.specs.Prelude.{◌≡◌};

use super::rows::{byte, key, number, short};
use slot_spec::{Ahead, Link, Node};
use state_spec::{Place, State};

// A link under tag 0.
pub fn link(height: u8, key: u32) -> Link
    ensures { result ≡ record { height = height; key = key; tag = 0 } }
{
    Link {
        height,
        key,
        ..Link::default()
    }
}

// A node of value 0.
pub fn node(key: u32, tag: u16, left: Link, right: Link) -> Node
    ensures { result ≡ record { key = key; value = 0; tag = tag; left = left; right = right } }
{
    Node {
        key,
        tag,
        left,
        right,
        ..Node::default()
    }
}

fn places_of(row: &[usize; 128]) -> [Place; 101] {
    let left = link(byte(row, b'a'), key(row, b'l'));
    let right = link(byte(row, b'b'), key(row, b'r'));
    let first = node(key(row, b'n'), short(row, b'g'), left, right);
    let second = node(key(row, b'q'), 0, Link::default(), Link::default());
    let mut places = [Place::default(); 101];
    places[1] = Place {
        full: second.key != 0,
        node: second,
    };
    places[number(row, b'p') % 101] = Place {
        full: number(row, b'f') == 1,
        node: first,
    };
    places
}

pub fn state_of(row: &[usize; 128]) -> State {
    let root = Link {
        height: byte(row, b'h'),
        key: key(row, b'k'),
        tag: short(row, b't'),
    };
    let ahead = Ahead {
        key: key(row, b'u'),
        tag: short(row, b'd'),
    };
    State {
        mark: byte(row, b'm'),
        structure: byte(row, b's'),
        size: byte(row, b'z'),
        entries: short(row, b'e'),
        root,
        ahead,
        count: short(row, b'w'),
        places: places_of(row),
    }
}
