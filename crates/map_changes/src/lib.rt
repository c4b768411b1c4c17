// Where an operation of the map changes it, and what it changes: the subtree there, and the answer.
#![tactic(auto)]

ghost use Rattle.std.specs.Prelude.{◌≡◌, ℕ, true, false, ◌+◌, ◌<◌};
ghost use Rattle.node_rows.specs.Row.{places, fetches};
ghost use Rattle.node_rows.specs.Held.{held_in};
ghost use Rattle.map_changes.specs.Bottom.{bottom_at, leaf_of, valued, past_found};

use map_nodes::Sub;
use node_rows::{ROW, node_at};
use operation_spec::{Answer, Full, Want};
use slot_spec::{Link, Node};

// Where the way up starts: the subtree there, the path to it over the first fetched nodes (see path_steps), how many
// fetched nodes are taken so far, and what the step makes of the entries and answers.
#[derive(Clone, Copy)]
pub struct Bottom {
    pub rotating: bool,
    pub sub: Sub,
    pub found: usize,
    pub length: usize,
    pub at: usize,
    pub entries: u16,
    pub answer: Result<Answer, Full>,
}

// A subtree at the end of a path of that length.
fn bottom_at(
    rotating: bool,
    sub: Sub,
    length: usize,
    at: usize,
    entries: u16,
    answer: Result<Answer, Full>,
) -> Bottom
    ensures { result ≡ bottom_at rotating sub length at entries answer }
{
    Bottom {
        rotating,
        sub,
        found: length,
        length,
        at,
        entries,
        answer,
    }
}

// The place where the key would be, with its link as it is.
pub fn at_gap(want: Want, depth: usize, entries: u16, answer: Result<Answer, Full>) -> Bottom
    ensures { result ≡ bottom_at false (Sub.Stub want.link) depth depth entries answer }
{
    bottom_at(false, Sub::Stub(want.link), depth, depth, entries, answer)
}

// The node with the key, as it is.
pub fn at_node(n: Node, depth: usize, entries: u16, answer: Result<Answer, Full>) -> Bottom
    requires { depth < fetches }
    ensures { result ≡ bottom_at false (Sub.Top n None None) depth (depth + 1) entries answer }
{
    let sub = Sub::Top(n, None, None);
    bottom_at(false, sub, depth, depth + 1, entries, answer)
}

// The place of the next larger key's node, number `last`: its right link takes that, and its entry goes to the node `found`.
pub fn past_found(last: usize, found: usize, entries: u16, value: u64, held: &[u64; ROW]) -> Bottom
    requires { last < places }
    ensures { (count : ℕ) → result ≡ past_found last found entries value (held_in held.now count) }
{
    let m = node_at(held, last);
    Bottom {
        rotating: true,
        sub: Sub::Stub(m.right),
        found,
        length: last,
        at: last + 1,
        entries,
        answer: Ok(Answer::Removed(value)),
    }
}

pub fn leaf(key: u32, value: u64, tag: u16) -> Node
    ensures { result ≡ leaf_of key value tag }
{
    Node {
        value,
        key,
        tag,
        left: Link::default(),
        right: Link::default(),
    }
}

// A new node where the key would be.
pub fn added(key: u32, value: u64, tag: u16, depth: usize, entries: u16) -> Bottom
    requires { entries < 65535 }
    ensures { result ≡ bottom_at true (Sub.Top (leaf_of key value tag) None None) depth depth (entries + 1) (Ok Answer.New) }
{
    let n = leaf(key, value, tag);
    let sub = Sub::Top(n, None, None);
    bottom_at(true, sub, depth, depth, entries + 1, Ok(Answer::New))
}

// The node with the key, with the new value.
pub fn replaced(n: Node, value: u64, depth: usize, entries: u16) -> Bottom
    requires { depth < fetches }
    ensures { result ≡ bottom_at false (Sub.Top (valued value n) None None) depth (depth + 1) entries (Ok (Answer.Replaced n.value)) }
{
    let mut m = n;
    m.value = value;
    bottom_at(
        false,
        Sub::Top(m, None, None),
        depth,
        depth + 1,
        entries,
        Ok(Answer::Replaced(n.value)),
    )
}

// The place of the node with the key: its only child's link, or an absent one, takes that.
pub fn taken_out(child: Link, depth: usize, entries: u16, value: u64) -> Bottom
    requires { depth < fetches }
    ensures { result ≡ bottom_at true (Sub.Stub child) depth (depth + 1) entries (Ok (Answer.Removed value)) }
{
    let sub = Sub::Stub(child);
    bottom_at(
        true,
        sub,
        depth,
        depth + 1,
        entries,
        Ok(Answer::Removed(value)),
    )
}
