// Runs rounds over a tree of size 2 and prints after each the used slots of the tree and the waiting nodes. The first three steps
// of the script are those of document 01's worked push: the node with tag 2 is then at byte 256, and none waits.
//
// A step is four characters, a kind, a key, a tag and a leaf, and then a blank. n: a new node waits. r: a round of the leaf, which
// wants none. t: a round of the tag's leaf takes the node out, which waits again under the leaf as its tag. Keys above 9 are letters.
#![tactic(auto)]

ghost use Rattle.std.specs.Prelude.{◌≡◌, ◌≤◌, length};
ghost use Rattle.slot_spec.specs.Tree.{tree_length};
ghost use Rattle.round_close.specs.Fault.{mark_of};
ghost use Rattle.word_round_laws.specs.SlotRow.{places, row_length};
ghost use Rattle.test_rounds.specs.Single.{Resting, Rests};

use bucket_writer::read_slot;
use path_reader::Wish;
use path_slots::PATH_SLOTS;
use round_close::Fault;
use slot_fields::node_of;
use slot_row::{ROW_LENGTH, get};
use slot_spec::{Node, Reading, SLOT_LENGTH};
use test_rounds::{Closed, round, take_round, wait};

// The descriptor of the standard output.
const STDOUT_FILENO: i32 = 1;

const SIZE: usize = 2;

const LEAVES: u16 = 4;

const SLOTS: usize = 28;

const TREE_LENGTH: usize = 896;

// ---- printing
fn say(text: &[u8]) {
    io::write_all(STDOUT_FILENO, text);
}

fn say_number(text: &[u8], n: u64) {
    io::write_all(STDOUT_FILENO, text);
    io::print_decimal(STDOUT_FILENO, n);
}

fn print_node(n: Node) {
    say_number(b" key ", u64::from(n.key));
    say_number(b" tag ", u64::from(n.tag));
    say_number(b" value ", n.value);
    say(b"\n");
}

// A used slot: its bucket, its number there and the byte where it starts.
fn print_slot(slot: usize, r: Reading)
    requires { slot ≤ 1000 }
{
    match r {
        Reading::Full(n) => {
            say_number(b"  bucket ", (slot / 4 + 1) as u64);
            say_number(b" slot ", (slot % 4) as u64);
            say_number(b" byte ", (SLOT_LENGTH * slot) as u64);
            print_node(n);
        }
        Reading::Empty => {}
        Reading::Bad => {
            say(b"  a bad slot\n");
        }
    }
}

fn print_tree(tree: &[u8])
    requires { length tree.now ≡ tree_length 2 }
{
    for i in 0..SLOTS {
        print_slot(i, read_slot(tree, SLOT_LENGTH * i, SIZE, i / 4 + 1));
    }
}

fn print_waits(n: Node) {
    say(b"  waits");
    print_node(n);
}

fn print_waiting(w: &[u8], n: usize)
    requires { (length w.now ≡ row_length) × (n ≤ places) }
{
    for i in 0..n {
        print_waits(node_of(get(w, i)));
    }
}

// A step of the script.
#[derive(Clone, Copy)]
struct Step {
    kind: u8,
    key: u16,
    tag: u16,
    leaf: u16,
}

fn announce(step: Step) {
    match step.kind {
        b'n' => {
            say_number(b"node ", u64::from(step.key));
            say_number(b" waits under tag ", u64::from(step.tag));
        }
        b'r' => {
            say_number(b"round of leaf ", u64::from(step.leaf));
        }
        _ => {
            say_number(b"round of leaf ", u64::from(step.tag));
            say_number(b" wants node ", u64::from(step.key));
            say_number(b", new tag ", u64::from(step.leaf));
        }
    }
    say(b"\n");
}

// What a step left; a node that came to wait is not worth a list.
fn print_store(kind: u8, fault: Option<Fault>, w: &[u8], n: usize, tree: &[u8])
    requires { (length w.now ≡ row_length) × (n ≤ places) × (length tree.now ≡ tree_length 2) }
{
    if fault.is_some() {
        say(b"  damage: nothing is changed\n");
    }
    if kind != b'n' {
        print_tree(tree);
        print_waiting(w, n);
    }
}

// ---- the script
fn new_node(key: u16, tag: u16) -> Node {
    Node {
        key: u32::from(key),
        value: 49 + u64::from(key),
        tag,
        ..Node::default()
    }
}

fn stopped(n: usize) -> Closed
    ensures { mark_of result.fault ≡ 9 }
{
    Closed {
        fault: Some(Fault::Overflow),
        waiting: n,
        node: None,
    }
}

// One step of the script; after an overflow the next one cannot be made.
fn make(step: Step, w: &mut [u8], n: usize, tree: &mut [u8], from: &mut [u32; PATH_SLOTS]) -> Closed
    requires { Resting 2 n w.old tree.old }
    ensures { Rests 2 w.new tree.new result }
{
    if step.kind == b'n' {
        if !wait(w, n, SIZE, new_node(step.key, step.tag)) {
            return stopped(n);
        }
        return Closed {
            fault: None,
            waiting: n + 1,
            node: None,
        };
    }
    if LEAVES <= step.tag || LEAVES <= step.leaf {
        return stopped(n);
    }
    if step.kind == b'r' {
        return round(w, n, tree, SIZE, usize::from(step.leaf), None, from);
    }
    let wish = Wish {
        key: u32::from(step.key),
        tag: step.tag,
    };
    take_round(w, n, tree, SIZE, wish, step.leaf, from)
}

// A digit, or a letter for 10 and more.
fn number(c: u8) -> u16 {
    match c {
        b'a'..=b'z' => u16::from(c - b'a') + 10,
        b'0'..=b'9' => u16::from(c - b'0'),
        _ => 0,
    }
}

fn run(script: &[u8], w: &mut [u8], tree: &mut [u8], from: &mut [u32; PATH_SLOTS])
    requires { Resting 2 0 w.old tree.old × (length script.now ≤ 1000) }
{
    let mut n = 0;
    for word in script.split(|c| *c == b' ') {
        let [kind, key, tag, leaf] = *word else {
            return;
        };
        let step = Step {
            kind,
            key: number(key),
            tag: number(tag),
            leaf: number(leaf),
        };
        announce(step);
        let r = make(step, w, n, tree, from);
        if r.fault == Some(Fault::Overflow) {
            say(b"  stopped\n");
            return;
        }
        n = r.waiting;
        print_store(step.kind, r.fault, w, n, tree);
    }
}

fn main() {
    let script =
        b"r001 n120 r003 n720 r002 n600 n200 n500 n300 n400 r000 t403 r001 t721 t612 t930 ng00 nf00 ne00 nd00 nc00 nb00 na00 n900 n800 r000 tb02 r003 nc30 r001";
    let mut w = [0u8; ROW_LENGTH];
    let mut tree = [0u8; TREE_LENGTH];
    let mut from = [0u32; PATH_SLOTS];
    run(script, &mut w, &mut tree, &mut from);
}
