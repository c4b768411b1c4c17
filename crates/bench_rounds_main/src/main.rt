// Rounds over a tree of size 8 with 255 nodes, as many as the first argument says: each takes a node out by a round of its leaf,
// and then it waits again under a new pseudo-random tag. Prints checksums of the leaves, the waiting nodes and the tree.
// bench/rounds.c does the same in C.
#![tactic(auto)]

ghost use Rattle.std.specs.Prelude.{◌≡◌, ◌≤◌, length};
ghost use Rattle.io.specs.Counts.{IsPrefixLen};
ghost use Rattle.word_round_laws.specs.SlotRow.{places, row_length};
ghost use Rattle.test_rounds.specs.Single.{Resting, Rests};
ghost use Rattle.bench_rounds_main.specs.Run.{size, Ran};

use checksums::{join, xorshift};
use path_reader::Wish;
use path_slots::PATH_SLOTS;
use round_close::Fault;
use slot_row::{ROW_LENGTH, get};
use slot_spec::Node;
use std::env::Env;
use test_rounds::{Closed, round, take_round, wait};

// The descriptor of the standard output.
const STDOUT_FILENO: i32 = 1;

const SIZE: usize = 8;

const NODES: usize = 255;

const TREE_LENGTH: usize = 65408;

const SEED: u64 = 88172645463325252;

// What many rounds leave: how many nodes wait, the random numbers' last state, and a checksum of the leaves.
#[derive(Clone, Copy)]
struct Turns {
    waiting: usize,
    seed: u64,
    leaves: u64,
}

fn new_node(key: u32, tag: u8) -> Node {
    Node {
        key,
        value: u64::from(key),
        tag: u16::from(tag),
        ..Node::default()
    }
}

// A new node waits, and a round of a leaf follows.
fn put_round(
    w: &mut [u8],
    n: usize,
    tree: &mut [u8],
    node: Node,
    leaf: u8,
    from: &mut [u32; PATH_SLOTS],
) -> Closed
    requires { Resting size n w.old tree.old }
    ensures { Rests size w.new tree.new result }
{
    if !wait(w, n, SIZE, node) {
        return Closed {
            fault: Some(Fault::Overflow),
            waiting: n,
            node: None,
        };
    }
    round(w, n + 1, tree, SIZE, usize::from(leaf), None, from)
}

// The nodes with keys 0 to 254 come to wait one by one, each followed by a round; `None` where a round failed.
fn fill(
    w: &mut [u8],
    tree: &mut [u8],
    tags: &mut [u8; NODES],
    from: &mut [u32; PATH_SLOTS],
) -> Option<Turns>
    requires { Resting size 0 w.old tree.old }
    ensures { Ran w.new tree.new result }
{
    let mut n = 0;
    let mut x = SEED;
    for i in 0..NODES {
        x = xorshift(x);
        let tag = (x % 256) as u8;
        tags[i] = tag;
        let leaf = (x / 256 % 256) as u8;
        let r = put_round(w, n, tree, new_node(i as u32, tag), leaf, from);
        if r.fault.is_some() {
            return None;
        }
        n = r.waiting;
    }
    Some(Turns {
        waiting: n,
        seed: x,
        leaves: 1,
    })
}

// So many turns, each of a node that is chosen at random; `None` where a round failed.
fn run(
    rounds: u64,
    w: &mut [u8],
    waiting: usize,
    tree: &mut [u8],
    tags: &mut [u8; NODES],
    seed: u64,
    from: &mut [u32; PATH_SLOTS],
) -> Option<Turns>
    requires { Resting size waiting w.old tree.old }
    ensures { Ran w.new tree.new result }
{
    let mut n = waiting;
    let mut x = seed;
    let mut leaves = 1;
    for _turn in 0..rounds {
        x = xorshift(x);
        let key = (x / 4294967296 % 255) as usize;
        let tag = tags[key];
        let new_tag = (x % 256) as u8;
        tags[key] = new_tag;
        leaves = join(leaves, u64::from(tag));
        let wish = Wish {
            key: key as u32,
            tag: u16::from(tag),
        };
        let r = take_round(w, n, tree, SIZE, wish, u16::from(new_tag), from);
        if r.fault.is_some() {
            return None;
        }
        n = r.waiting;
    }
    Some(Turns {
        waiting: n,
        seed: x,
        leaves,
    })
}

fn checksum_bytes(bytes: &[u8]) -> u64 {
    bytes
        .iter()
        .fold(1, |sum, byte| join(sum, u64::from(*byte)))
}

// A checksum of the first n waiting nodes' words.
fn checksum_waiting(w: &[u8], n: usize) -> u64
    requires { (length w.now ≡ row_length) × (n ≤ places) }
{
    let mut sum = 1;
    for i in 0..n {
        let x = get(w, i);
        sum = join(join(join(join(sum, x.a), x.b), x.c), x.d);
    }
    sum
}

fn line(label: &[u8], n: u64) {
    io::write_all(STDOUT_FILENO, label);
    io::write_all(STDOUT_FILENO, b" ");
    io::print_decimal(STDOUT_FILENO, n);
    io::write_all(STDOUT_FILENO, b"\n");
}

// Puts an argument at the start of a buffer; how long it is, or 0 where it is missing or longer than the buffer.
fn argument(rt: &impl Env, i: usize, out: &mut [u8]) -> usize
    ensures { IsPrefixLen result out.new }
{
    match rt.arg(i, out) {
        Ok(length) => length,
        Err(_) => 0,
    }
}

// The number that the first argument's digits are.
fn rounds_asked(rt: &impl Env) -> u64 {
    let mut text = [0u8; 16];
    let n = argument(rt, 1, &mut text);
    let mut rounds = 0;
    for c in &text[..n] {
        if *c < b'0' {
            return rounds;
        }
        if rounds < 1000000000000 {
            rounds = 10 * rounds + u64::from(*c - b'0');
        }
    }
    rounds
}

fn main(rt: HostRuntime) {
    let rounds = rounds_asked(&rt);
    let mut w = [0u8; ROW_LENGTH];
    let mut tree = [0u8; TREE_LENGTH];
    let mut tags = [0u8; NODES];
    let mut from = [0u32; PATH_SLOTS];
    let Some(filled) = fill(&mut w, &mut tree, &mut tags, &mut from) else {
        io::write_all(STDOUT_FILENO, b"a round failed\n");
        return;
    };
    let Some(ran) = run(
        rounds,
        &mut w,
        filled.waiting,
        &mut tree,
        &mut tags,
        filled.seed,
        &mut from,
    ) else {
        io::write_all(STDOUT_FILENO, b"a round failed\n");
        return;
    };
    line(b"rounds", rounds);
    line(b"leaves", ran.leaves);
    line(b"waiting", ran.waiting as u64);
    line(b"waiting checksum", checksum_waiting(&w, ran.waiting));
    line(b"tree checksum", checksum_bytes(&tree));
}
