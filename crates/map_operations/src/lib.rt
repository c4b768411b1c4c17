// The walk of each of the map's operations down to where its change stands.
#![tactic(auto)]

ghost use Rattle.method_spec.specs.Map.{get_prog, put_prog, remove_prog};
ghost use Rattle.leaf_spec.specs.Convert.{to_link};
ghost use Rattle.node_rows.specs.Held.{held_in};
ghost use Rattle.map_descent.specs.Walk.{Walks};
ghost use Rattle.map_changes.specs.Bottom.{StartsIfHeld};

use map_changes::{Bottom, added, at_gap, at_node, past_found, replaced, taken_out};
use map_descent::descend::{descend, next_larger};
use node_rows::ROW;
use operation_spec::{Answer, Full, Want};
use operations::one_less;
use slot_spec::Link;

// A get changes nothing but tags.
pub fn get(
    key: u32,
    entries: u16,
    root: Link,
    held: &[u64; ROW],
    count: usize,
) -> Result<Bottom, Want>
    requires { Walks root (held_in held.now count) }
    ensures { StartsIfHeld key root (held_in held.now count) (get_prog key entries (to_link root)) result }
{
    let d = descend(key, root, held, count)?;
    match d.node {
        None => Ok(at_gap(d.want, d.depth, entries, Ok(Answer::Absent))),
        Some(n) => Ok(at_node(n, d.depth, entries, Ok(Answer::Found(n.value)))),
    }
}

// A put replaces the value of a present key, or adds a node with the new tag where there is room.
pub fn put(
    key: u32,
    value: u64,
    tag: u16,
    limit: u16,
    entries: u16,
    root: Link,
    held: &[u64; ROW],
    count: usize,
) -> Result<Bottom, Want>
    requires { Walks root (held_in held.now count) }
    ensures { StartsIfHeld key root (held_in held.now count) (put_prog 0 key value tag entries limit (to_link root)) result }
{
    let d = descend(key, root, held, count)?;
    match d.node {
        Some(n) => Ok(replaced(n, value, d.depth, entries)),
        None => {
            if entries < limit {
                return Ok(added(key, value, tag, d.depth, entries));
            }
            Ok(at_gap(d.want, d.depth, entries, Err(Full)))
        }
    }
}

// A remove takes the node with the key out of the tree. One with two children leaves its place to the next larger key's node.
pub fn remove(
    key: u32,
    entries: u16,
    root: Link,
    held: &[u64; ROW],
    count: usize,
) -> Result<Bottom, Want>
    requires { Walks root (held_in held.now count) }
    ensures { StartsIfHeld key root (held_in held.now count) (remove_prog key entries (to_link root)) result }
{
    let d = descend(key, root, held, count)?;
    let Some(n) = d.node else {
        return Ok(at_gap(d.want, d.depth, entries, Ok(Answer::Absent)));
    };
    let fewer = one_less(entries);
    if n.left.height == 0 {
        return Ok(taken_out(n.right, d.depth, fewer, n.value));
    }
    if n.right.height == 0 {
        return Ok(taken_out(n.left, d.depth, fewer, n.value));
    }
    let last = next_larger(d.want, d.depth, held, count)?;
    Ok(past_found(last, d.depth, fewer, n.value, held))
}
