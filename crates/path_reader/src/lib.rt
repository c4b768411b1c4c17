// The read half of a round: the path's nodes join those waiting, in place, and the wanted one is found. Nothing of the tree is
// written, and with damage the joined ones are taken out again, so that it leaves all as it was.
#![tactic(auto)]

ghost use Rattle.std.specs.Prelude.{◌≡◌, true, [], ◌∷◌, ◌<◌, length, take};
ghost use Rattle.slot_spec.specs.Slot.{slot_bytes};
ghost use Rattle.round_spec.specs.Round.{keys_of};
ghost use Rattle.round_spec.specs.Nodes.{words_format};
ghost use Rattle.word_round_laws.specs.SlotRow.{places, row_length, levels, slots_in, Blank};
ghost use Rattle.list_spec.specs.Ascending.{ascending};
ghost use Rattle.path_reader.specs.Joined.{ReadingsJoined};
ghost use Rattle.path_reader.specs.Undo.{WereJoined, Undone};
ghost use Rattle.path_reader.specs.Look.{Fit, LookedFor, PathFound, PathRead};

use held_keys::is_held;
use path_slots::{PATH_SLOTS, gather_path};
use slot_fields::{key_of, node_of, tag_of};
use slot_row::{find, get, join_slot, take_out};
use slot_spec::{BUCKET_LENGTH, Node, Reading, Slot};
use slot_words::load;
use slots::reading;

// The path has damage, or the wanted node is not there.
#[derive(Clone, Copy, PartialEq, Eq)]
pub struct Damage;

// A path that joined: how many slots wait then, and how many of the path's are full.
#[derive(Clone, Copy)]
pub struct Gathered {
    pub count: usize,
    pub full: usize,
}

// The node that a round wants: its key, and the tag of the link that leads to it.
#[derive(Clone, Copy)]
pub struct Wish {
    pub key: u32,
    pub tag: u16,
}

// What looking for it answers: how many slots are joined, of a wanted node its place among them and the node, and how many slots of
// the path are full.
#[derive(Clone, Copy)]
pub struct Looked {
    pub count: usize,
    pub at: usize,
    pub node: Node,
    pub full: usize,
}

// One slot of the path joins the first m; how many wait then.
fn join_reading(
    s: &mut [u8],
    m: usize,
    x: Slot,
    size: usize,
    bucket: usize,
    held: &[u32],
) -> Result<usize, Damage>
    requires { (length s.old ≡ row_length) × (m < places) × (ascending (keys_of words_format (take m (slots_in s.old))) ≡ true) × Blank m s.old × (size < levels) }
    ensures { ReadingsJoined size held.now (words_format.read size bucket (slot_bytes x) ∷ []) m s.old s.new result }
{
    let r = reading(x, size, bucket);
    let Reading::Full(n) = r else {
        let Reading::Empty = r else {
            return Err(Damage);
        };
        return Ok(m);
    };
    if !is_held(held, n.key) && join_slot(s, m, x) {
        Ok(m + 1)
    } else {
        Err(Damage)
    }
}

// The slots of a tree that start at some bytes and joined, which makes m, are taken out again, the last first.
pub fn undo(s: &mut [u8], m: usize, tree: &[u8], starts: &[u32])
    requires { (length s.old ≡ row_length) × WereJoined tree.now starts.now m s.old }
    ensures { Undone tree.now starts.now m s.old s.new }
{
    let mut count = m;
    for i in (0..starts.len()).rev() {
        let x = load(tree, starts[i] as usize);
        let at = find(s, count, key_of(x));
        take_out(s, count, at);
        count -= 1;
    }
}

// The path of a leaf, from the leaf's bucket up, joins the first n. Only its full slots are asked; where they start stays in `from`.
fn read_path(
    s: &mut [u8],
    n: usize,
    tree: &[u8],
    size: usize,
    leaf: usize,
    held: &[u32],
    from: &mut [u32; PATH_SLOTS],
) -> Result<Gathered, Damage>
    requires { Fit size leaf n s.old tree.now held.now }
    ensures { PathRead size leaf n s.old tree.now held.now from.new s.new result }
{
    let full = gather_path(tree, size, leaf, from);
    let mut count = n;
    for i in 0..full {
        let at = from[i] as usize;
        let x = load(tree, at);
        let Ok(joined) = join_reading(s, count, x, size, at / BUCKET_LENGTH + 1, held) else {
            undo(s, count, tree, &from[..i]);
            return Err(Damage);
        };
        count = joined;
    }
    Ok(Gathered { count, full })
}

// The read half of a round: the path's slots join the n waiting ones, in key order, and the wanted one is found there. The caller
// tests the node, and hands the row on to the write half, with `from`: where the path's full slots start; or it undoes the joining.
pub fn look(
    w: &mut [u8],
    n: usize,
    tree: &[u8],
    size: usize,
    leaf: usize,
    wish: Option<Wish>,
    held: &[u32],
    from: &mut [u32; PATH_SLOTS],
) -> Result<Looked, Damage>
    requires { Fit size leaf n w.old tree.now held.now }
    ensures { LookedFor size leaf wish n w.old tree.now held.now w.new result × PathFound size leaf n w.old tree.now held.now from.new w.new result }
{
    let Gathered { count, full } = read_path(w, n, tree, size, leaf, held, from)?;
    let Some(wish) = wish else {
        return Ok(Looked {
            count,
            at: 0,
            node: Node::default(),
            full,
        });
    };
    let at = find(w, count, wish.key);
    if at < count {
        let x = get(w, at);
        if tag_of(x) == wish.tag {
            return Ok(Looked {
                count,
                at,
                node: node_of(x),
                full,
            });
        }
    }
    undo(w, count, tree, &from[..full]);
    Err(Damage)
}
