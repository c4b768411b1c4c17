// The heap over the nodes that a call has fetched so far: which node is wanted next, and the step.
#![tactic(auto)]

ghost use Rattle.std.specs.Prelude.{◌≡◌, ℕ, ◌≤◌};
ghost use Rattle.method_spec.specs.Heap.{add_prog, take_prog};
ghost use Rattle.leaf_spec.specs.Convert.{to_link};
ghost use Rattle.operation_spec.specs.Method.{to_outcome, to_wanted};
ghost use Rattle.operations.specs.Resume.{resume, wanted_of, outcome_of};
ghost use Rattle.node_rows.specs.Row.{places};
ghost use Rattle.node_rows.specs.Held.{held_in, nodes_of};

use heap_descent::way::{next_on, way_to};
use heap_rising::rise;
use heap_sinking::sink;
use node_rows::{ROW, node_at};
use operation_spec::{Answer, Full, Outcome, Want};
use operations::{link_one, no_nodes, one_less};
use slot_spec::{Link, Node};

// An add wants the nodes of the way to the next position. A full heap's wants none.
pub fn add_wanted(
    limit: u16,
    entries: u16,
    root: Link,
    held: &[u64; ROW],
    count: usize,
) -> Option<Want>
    requires { count ≤ places }
    ensures { (value tag : ℕ) → to_wanted result ≡ wanted_of (resume (add_prog 0 value tag entries limit (to_link root)) (nodes_of (held_in held.now count))) }
{
    if entries < limit {
        let way = way_to(entries + 1);
        if count < way.depth {
            return Some(next_on(way, root, held, count));
        }
    }
    None
}

// The new position's node, whose number rises over the nodes of the way.
pub fn add(
    value: u64,
    tag: u16,
    limit: u16,
    entries: u16,
    root: Link,
    held: &[u64; ROW],
    count: usize,
    made: &mut [u64; ROW],
) -> Outcome
    requires { count ≤ places }
    ensures { (to_outcome result (nodes_of (held_in made.new result.made)) ≡ outcome_of (to_link root) entries (resume (add_prog 0 value tag entries limit (to_link root)) (nodes_of (held_in held.now count)))) × (result.made ≤ places) }
{
    if entries >= limit {
        return no_nodes(root, entries, Err(Full));
    }
    let more = entries + 1;
    let way = way_to(more);
    if count < way.depth {
        return no_nodes(root, entries, Ok(Answer::Absent));
    }
    let n = Node {
        key: u32::from(more),
        value,
        tag,
        left: Link::default(),
        right: Link::default(),
    };
    let top = link_one(rise(n, way, held, made));
    Outcome {
        made: way.depth + 1,
        root: top,
        entries: more,
        answer: Ok(Answer::Added),
    }
}

// A take wants the nodes of the way to the last position, then the children of the nodes from which its number sinks. `made` is
// scratch space.
pub fn take_wanted(
    entries: u16,
    root: Link,
    held: &[u64; ROW],
    count: usize,
    made: &mut [u64; ROW],
) -> Option<Want>
    requires { count ≤ places }
    ensures { to_wanted result ≡ wanted_of (resume (take_prog 0 entries (to_link root)) (nodes_of (held_in held.now count))) }
{
    if entries == 0 {
        return None;
    }
    let way = way_to(entries);
    if count <= way.depth {
        return Some(next_on(way, root, held, count));
    }
    if way.depth == 0 {
        return None;
    }
    let z = node_at(held, way.depth);
    sink(z.value, way, held, count, made).err()
}

// The root's number is answered, and the last position's, whose node leaves, sinks from the root.
pub fn take(
    entries: u16,
    root: Link,
    held: &[u64; ROW],
    count: usize,
    made: &mut [u64; ROW],
) -> Outcome
    requires { count ≤ places }
    ensures { (to_outcome result (nodes_of (held_in made.new result.made)) ≡ outcome_of (to_link root) entries (resume (take_prog 0 entries (to_link root)) (nodes_of (held_in held.now count)))) × (result.made ≤ places) }
{
    if entries == 0 {
        return no_nodes(root, entries, Ok(Answer::Empty));
    }
    let way = way_to(entries);
    if count <= way.depth {
        return no_nodes(root, entries, Ok(Answer::Absent));
    }
    let fewer = one_less(entries);
    let z = node_at(held, way.depth);
    if way.depth == 0 {
        return no_nodes(Link::default(), fewer, Ok(Answer::Taken(z.value)));
    }
    let Ok(r) = sink(z.value, way, held, count, made) else {
        return no_nodes(root, entries, Ok(Answer::Absent));
    };
    let top = node_at(held, 0);
    Outcome {
        made: r.made,
        root: link_one(top),
        entries: fewer,
        answer: Ok(Answer::Taken(top.value)),
    }
}
