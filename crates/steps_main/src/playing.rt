// A call: its fetch rounds, each of one node that it wants next, and its step.
ghost use Rattle.std.specs.Prelude.{◌≡◌, true, false, ◌≤◌, length};
ghost use Rattle.state_spec.specs.Ticket.{structure_of};
ghost use Rattle.operation_spec.specs.Method.{structure_asked};
ghost use Rattle.node_rows.specs.Row.{words};
ghost use Rattle.short_outcomes.specs.OneFetch.{one_fetch};
ghost use Rattle.structures.specs.Operation.{LowHeld};

use super::memory::{Memory, find, put_back, put_one, without};
use fetch_tests::passes;
use node_rows::{FETCHES, ROW, set_node};
use operation_spec::{Answer, Full, Op, Spares};
use short_steps::{short_step, short_test, short_wanted};
use slot_spec::{Ahead, Node};
use structures::{step, wanted};

// As many entries as a store of size 4 has at most.
const LIMIT: u16 = 15;

// What a call leaves and answers.
#[derive(Clone, Copy)]
pub struct Done {
    pub memory: Memory,
    pub answer: Result<Answer, Full>,
}

// The nodes still in memory, and how many the call holds.
#[derive(Clone, Copy)]
struct Gathered {
    memory: Memory,
    count: usize,
}

// The structure that an operation is of: 1 the map, 2 the stack, 3 the heap, 4 the queue.
fn structure_of(op: Op) -> u8
    ensures { structure_of result ≡ structure_asked op }
{
    match op {
        Op::Get(_) => 1,
        Op::Put(_, _) => 1,
        Op::Remove(_) => 1,
        Op::Push(_) => 2,
        Op::Pop => 2,
        Op::Add(_) => 3,
        Op::Take => 3,
        Op::Enqueue(_) => 4,
        Op::Dequeue => 4,
    }
}

// Whether a structure has one fetch round: the stack and the queue.
fn one_fetch(structure: u8) -> bool
    ensures { result ≡ one_fetch (structure_of structure) }
{
    structure != 1 && structure != 3
}

// A new node's tag. Nothing is known ahead: no script has a queue.
fn spares_of(tag: u16) -> Spares
    ensures { result.ahead.key ≡ 0 }
{
    Spares {
        first: tag,
        second: tag,
        ahead: Ahead::default(),
    }
}

// The wanted nodes one after the other into the row of held ones, until none is wanted or one is not to be had; `made` is
// scratch space. The root link is low, and with it the wanted links and the nodes that pass the test.
fn gather(
    op: Op,
    structure: u8,
    spares: Spares,
    memory: Memory,
    held: &mut [u64; ROW],
    made: &mut [u64; ROW],
) -> Gathered
    requires { ((one_fetch (structure_of structure) ≡ false) × (one_fetch (structure_asked op) ≡ false)) × (((memory.count ≤ 16) × (memory.root.height ≤ 100)) × ((length held.old ≡ words) × (length made.old ≡ words))) }
    ensures { (result.memory.count ≤ 16) × ((LowHeld memory.root held.new result.count) × (length made.new ≡ words)) }
{
    let root = memory.root;
    let mut m = memory;
    for count in 0..FETCHES {
        let next = wanted(op, LIMIT, memory.entries, root, spares, held, count, made);
        let Some(want) = next else {
            return Gathered { memory: m, count };
        };
        let Some(i) = find(m, want.link) else {
            return Gathered { memory: m, count };
        };
        let n = m.nodes[i];
        if !passes(structure, memory.entries, want, n) {
            return Gathered { memory: m, count };
        }
        m = without(m, i);
        set_node(held, count, n);
    }
    Gathered {
        memory: m,
        count: FETCHES,
    }
}

// A call of a map or a heap.
fn long_call(memory: Memory, op: Op, structure: u8, tag: u16) -> Done
    requires { ((one_fetch (structure_of structure) ≡ false) × (one_fetch (structure_asked op) ≡ false)) × ((memory.count ≤ 16) × (memory.root.height ≤ 100)) }
    ensures { result.memory.count ≤ 16 }
{
    let root = memory.root;
    let spares = spares_of(tag);
    let mut held = [0u64; ROW];
    let mut made = [0u64; ROW];
    let gathered = gather(op, structure, spares, memory, &mut held, &mut made);
    let o = step(
        op,
        LIMIT,
        memory.entries,
        root,
        spares,
        &held,
        gathered.count,
        &mut made,
    );
    Done {
        memory: put_back(gathered.memory, o, &made),
        answer: o.answer,
    }
}

// The step of a stack or a queue, and what it leaves.
fn short_end(memory: Memory, op: Op, tag: u16, node: Node) -> Done
    requires { (one_fetch (structure_asked op) ≡ true) × (memory.count ≤ 16) }
    ensures { result.memory.count ≤ 16 }
{
    let spares = spares_of(tag);
    let o = short_step(op, LIMIT, memory.entries, memory.root, spares, node);
    Done {
        memory: put_one(memory, o),
        answer: o.answer,
    }
}

// A call of a stack or a queue. One whose wanted node is not to be had changes nothing.
fn short_call(memory: Memory, op: Op, structure: u8, tag: u16) -> Done
    requires { ((one_fetch (structure_of structure) ≡ true) × (one_fetch (structure_asked op) ≡ true)) × (memory.count ≤ 16) }
    ensures { result.memory.count ≤ 16 }
{
    let absent = Done {
        memory,
        answer: Ok(Answer::Absent),
    };
    let Some(want) = short_wanted(op, memory.entries, memory.root) else {
        return short_end(memory, op, tag, Node::default());
    };
    let Some(i) = find(memory, want.link) else {
        return absent;
    };
    let n = memory.nodes[i];
    if !short_test(structure, want, n) {
        return absent;
    }
    short_end(without(memory, i), op, tag, n)
}

// A call.
pub fn call(memory: Memory, op: Op, tag: u16) -> Done
    requires { (memory.count ≤ 16) × (memory.root.height ≤ 100) }
    ensures { result.memory.count ≤ 16 }
{
    let structure = structure_of(op);
    if one_fetch(structure) {
        return short_call(memory, op, structure, tag);
    }
    long_call(memory, op, structure, tag)
}
