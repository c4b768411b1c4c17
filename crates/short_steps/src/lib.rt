// The structures with one fetch round, the stack and the queue: whether an operation wants a node, its step, and the fetch test.
#![tactic(auto)]

ghost use Rattle.std.specs.Prelude.{◌≡◌, true, [], ◌∷◌, ℕ};
ghost use Rattle.method_spec.specs.Prog.{done, after};
ghost use Rattle.method_spec.specs.Call.{test};
ghost use Rattle.leaf_spec.specs.Convert.{to_link, to_node};
ghost use Rattle.leaf_spec.specs.Entries.{KeyLeft};
ghost use Rattle.state_spec.specs.Ticket.{structure_of};
ghost use Rattle.operation_spec.specs.declared.Spares as spares;
ghost use Rattle.operation_spec.specs.Method.{structure_asked, to_op, to_want, to_wanted, program_for, wanted_in};
ghost use Rattle.short_outcomes.specs.OneFetch.{one_fetch, to_one_outcome};

use operation_spec::{Op, Spares, Want};
use queue_steps::{dequeue, dequeue_wanted, enqueue, queue_test};
use short_outcomes::OneMade;
use slot_spec::{Link, Node};
use stack_steps::{pop, pop_wanted, push, stack_test};

// The node that the fetch round wants, if it wants one.
pub fn short_wanted(op: Op, entries: u16, root: Link) -> Option<Want>
    requires { one_fetch (structure_asked op) ≡ true }
    ensures { (s : spares.Spares) (limit : ℕ) → to_wanted result ≡ wanted_in (program_for op s limit entries (to_link root)) }
{
    match op {
        Op::Pop => pop_wanted(root),
        Op::Dequeue => dequeue_wanted(entries, root),
        _ => None,
    }
}

// The step with the fetched node; where none was wanted, any node is as good. An in has a key for the node that comes next. What is left
// after the named operations is an out.
pub fn short_step(
    op: Op,
    limit: u16,
    entries: u16,
    root: Link,
    spares: Spares,
    node: Node,
) -> OneMade
    requires { (one_fetch (structure_asked op) ≡ true) × KeyLeft (to_op op) spares.ahead.key }
    ensures { done (to_one_outcome result) ≡ after (program_for op spares limit entries (to_link root)) (to_node node ∷ []) }
{
    match op {
        Op::Push(value) => push(value, spares.first, limit, entries, root),
        Op::Pop => pop(entries, root, node),
        Op::Enqueue(value) => enqueue(value, spares, limit, entries, root),
        _ => dequeue(entries, root, node),
    }
}

// The fetch test of a structure, 2 the stack, else the queue. It does not depend on the entries.
pub fn short_test(structure: u8, want: Want, node: Node) -> bool
    requires { one_fetch (structure_of structure) ≡ true }
    ensures { (entries : ℕ) → result ≡ test (structure_of structure) entries (to_want want) (to_node node) }
{
    if structure == 2 {
        return stack_test(want, node);
    }
    queue_test(want, node)
}
