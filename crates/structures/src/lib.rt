// What a map's or a heap's operation wants next of the nodes fetched for it so far, and its step once it wants none; what is known ahead
// after any structure's.
#![tactic(auto)]

ghost use Rattle.std.specs.Prelude.{◌≡◌, false, ◌≤◌, length};
ghost use Rattle.leaf_spec.specs.Convert.{to_link, to_ahead};
ghost use Rattle.leaf_spec.specs.Entries.{KeyLeft};
ghost use Rattle.operation_spec.specs.Method.{structure_asked, to_op, to_outcome, to_wanted, wanted_in, outcome_in, ahead_for};
ghost use Rattle.node_rows.specs.Row.{places, words};
ghost use Rattle.node_rows.specs.Held.{held_in, nodes_of};
ghost use Rattle.short_outcomes.specs.OneFetch.{one_fetch};
ghost use Rattle.structures.specs.Operation.{LowHeld, after_held};

use heap_steps::{add, add_wanted, take, take_wanted};
use map_operations::{get, put, remove};
use map_steps::{map_step, map_wanted};
use node_rows::ROW;
use operation_spec::{Op, Outcome, Spares, Want};
use queue_steps::{dequeue_ahead, enqueue_ahead};
use slot_spec::{Ahead, Link};

// The next wanted node of a map or a heap, for a store of that capacity with those entries and that root link, and what a new node's tags
// come from. The first `count` nodes of the row are held; `made` is scratch space. What is left after the named operations is a take.
pub fn wanted(
    op: Op,
    limit: u16,
    entries: u16,
    root: Link,
    spares: Spares,
    held: &[u64; ROW],
    count: usize,
    made: &mut [u64; ROW],
) -> Option<Want>
    requires { LowHeld root held.now count × ((length made.old ≡ words) × (one_fetch (structure_asked op) ≡ false)) }
    ensures { (to_wanted result ≡ wanted_in (after_held op spares limit entries root (held_in held.now count))) × (length made.new ≡ words) }
{
    match op {
        Op::Get(key) => map_wanted(
            get(key, entries, root, held, count),
            key,
            root,
            held,
            count,
            made,
        ),
        Op::Put(key, value) => map_wanted(
            put(key, value, spares.first, limit, entries, root, held, count),
            key,
            root,
            held,
            count,
            made,
        ),
        Op::Remove(key) => map_wanted(
            remove(key, entries, root, held, count),
            key,
            root,
            held,
            count,
            made,
        ),
        Op::Add(_) => add_wanted(limit, entries, root, held, count),
        _ => take_wanted(entries, root, held, count, made),
    }
}

// The step of a map or a heap, where no node is wanted any more; else nothing, with root link and entries as they were. The nodes that it makes are in
// the first places of `made`.
pub fn step(
    op: Op,
    limit: u16,
    entries: u16,
    root: Link,
    spares: Spares,
    held: &[u64; ROW],
    count: usize,
    made: &mut [u64; ROW],
) -> Outcome
    requires { LowHeld root held.now count × ((length made.old ≡ words) × (one_fetch (structure_asked op) ≡ false)) }
    ensures { (to_outcome result (nodes_of (held_in made.new result.made)) ≡ outcome_in (to_link root) entries (after_held op spares limit entries root (held_in held.now count))) × ((result.made ≤ places) × (length made.new ≡ words)) }
{
    match op {
        Op::Get(key) => map_step(
            get(key, entries, root, held, count),
            key,
            entries,
            root,
            held,
            count,
            made,
        ),
        Op::Put(key, value) => map_step(
            put(key, value, spares.first, limit, entries, root, held, count),
            key,
            entries,
            root,
            held,
            count,
            made,
        ),
        Op::Remove(key) => map_step(
            remove(key, entries, root, held, count),
            key,
            entries,
            root,
            held,
            count,
            made,
        ),
        Op::Add(value) => add(value, spares.first, limit, entries, root, held, count, made),
        _ => take(entries, root, held, count, made),
    }
}

// What is known ahead after the step. It does not depend on the nodes that were fetched. An in has a key for the node that comes next.
pub fn ahead_after(op: Op, limit: u16, entries: u16, spares: Spares) -> Ahead
    requires { KeyLeft (to_op op) spares.ahead.key }
    ensures { to_ahead result ≡ ahead_for op spares limit entries }
{
    let ahead = spares.ahead;
    match op {
        Op::Enqueue(_) => enqueue_ahead(spares, limit, entries),
        Op::Dequeue => dequeue_ahead(entries, ahead),
        _ => ahead,
    }
}
