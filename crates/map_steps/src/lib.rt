// What an operation of the map wants next, and its step, from where its change stands.
#![tactic(auto)]

ghost use Rattle.std.specs.Prelude.{◌≡◌, ◌≤◌, IfOk};
ghost use Rattle.method_spec.specs.Map as map;
ghost use Rattle.leaf_spec.specs.Convert.{to_link};
ghost use Rattle.operation_spec.specs.Method.{to_step_answer, to_outcome, to_wanted};
ghost use Rattle.operations.specs.Resume.{outcome_of};
ghost use Rattle.operations.specs.Resume.{wanted_of};
ghost use Rattle.node_rows.specs.Row.{places};
ghost use Rattle.node_rows.specs.Held.{held_in, nodes_of};
ghost use Rattle.map_descent.specs.Walk.{Walks};
ghost use Rattle.map_changes.specs.Bottom.{BottomReady};
ghost use Rattle.map_ascent.specs.Climb.{climbed_in};
ghost use Rattle.map_steps.specs.Outcome.{RoomToFinish, from_bottom};

use map_ascent::{Climbed, climb, list_kid};
use map_changes::Bottom;
use map_nodes::subtree::{kid_of, link_of, top_of};
use node_rows::ROW;
use operation_spec::{Answer, Full, Outcome, Want};
use operations::no_nodes;
use slot_spec::Link;

// The outcome of a climb that came to its end: the nodes at hand there are done with too.
fn finish(c: Climbed, entries: u16, answer: Result<Answer, Full>, made: &mut [u64; ROW]) -> Outcome
    requires { RoomToFinish made.old c }
    ensures { (to_outcome result (nodes_of (held_in made.new result.made)) ≡ map.finish entries (to_step_answer answer) (climbed_in made.old c)) × (result.made ≤ places) }
{
    let first = list_kid(made, c.count, kid_of(true, c.sub));
    let second = list_kid(made, first, kid_of(false, c.sub));
    let third = list_kid(made, second, top_of(c.sub));
    Outcome {
        made: third,
        root: link_of(c.sub),
        entries,
        answer,
    }
}

// The node that an operation of the map wants next. The nodes that the way up makes for that stay in the lent row.
pub fn map_wanted(
    b: Result<Bottom, Want>,
    key: u32,
    root: Link,
    held: &[u64; ROW],
    count: usize,
    made: &mut [u64; ROW],
) -> Option<Want>
    requires { Walks root (held_in held.now count) × IfOk b (BottomReady key root (held_in held.now count)) }
    ensures { to_wanted result ≡ wanted_of (from_bottom key root (held_in held.now count) b) }
{
    match b {
        Err(want) => Some(want),
        Ok(b) => {
            if !b.rotating {
                return None;
            }
            climb(b, key, root, held, count, made).err()
        }
    }
}

// The step of an operation of the map: the nodes that it makes are in the first places of the lent row.
pub fn map_step(
    b: Result<Bottom, Want>,
    key: u32,
    entries: u16,
    root: Link,
    held: &[u64; ROW],
    count: usize,
    made: &mut [u64; ROW],
) -> Outcome
    requires { Walks root (held_in held.now count) × IfOk b (BottomReady key root (held_in held.now count)) }
    ensures { (to_outcome result (nodes_of (held_in made.new result.made)) ≡ outcome_of (to_link root) entries (from_bottom key root (held_in held.now count) b)) × (result.made ≤ places) }
{
    let Ok(b) = b else {
        return no_nodes(root, entries, Ok(Answer::Absent));
    };
    let Ok(c) = climb(b, key, root, held, count, made) else {
        return no_nodes(root, entries, Ok(Answer::Absent));
    };
    finish(c, b.entries, b.answer, made)
}
