// The stack's operations as functions of the one node that a call fetches: whether it is wanted, the step, and the fetch test.
#![tactic(auto)]

ghost use Rattle.std.specs.Prelude.{◌≡◌, [], ◌∷◌, ℕ};
ghost use Rattle.method_spec.specs.Prog.{done, after};
ghost use Rattle.method_spec.specs.Stack.{push_prog, pop_prog, stack_test};
ghost use Rattle.leaf_spec.specs.Convert.{to_link, to_node};
ghost use Rattle.operation_spec.specs.Method.{to_want, to_wanted, wanted_in};
ghost use Rattle.short_outcomes.specs.OneFetch.{to_one_outcome};

use operation_spec::{Answer, Full, Want};
use operations::{link_one, one_less, start};
use short_outcomes::{OneMade, none_made};
use slot_spec::{Link, Node};

// A push fetches none: a node with key entries + 1 whose left link is the old top.
pub fn push(value: u64, tag: u16, limit: u16, entries: u16, root: Link) -> OneMade
    ensures { done (to_one_outcome result) ≡ push_prog 0 value tag entries limit (to_link root) }
{
    if entries >= limit {
        return none_made(root, entries, Err(Full));
    }
    let more = entries + 1;
    let node = Node {
        key: u32::from(more),
        value,
        tag,
        left: root,
        right: Link::default(),
    };
    OneMade {
        node: Some(node),
        root: link_one(node),
        entries: more,
        answer: Ok(Answer::Pushed),
    }
}

// A pop wants the top.
pub fn pop_wanted(root: Link) -> Option<Want>
    ensures { (entries : ℕ) → to_wanted result ≡ wanted_in (pop_prog entries (to_link root)) }
{
    if root.height == 0 {
        return None;
    }
    Some(start(root))
}

// The root link becomes the top's left link. An empty stack has no top: whatever node is given, nothing is popped.
pub fn pop(entries: u16, root: Link, top: Node) -> OneMade
    ensures { done (to_one_outcome result) ≡ after (pop_prog entries (to_link root)) (to_node top ∷ []) }
{
    if root.height == 0 {
        return none_made(root, entries, Ok(Answer::Empty));
    }
    none_made(top.left, one_less(entries), Ok(Answer::Popped(top.value)))
}

// The stack's fetch test: no right link, and a left link of height 1 to the key before, absent exactly at key 1.
pub fn stack_test(want: Want, n: Node) -> bool
    ensures { result ≡ stack_test (to_want want) (to_node n) }
{
    if n.right.height != 0 {
        return false;
    }
    if n.key == 1 {
        return n.left.height == 0;
    }
    n.left.height == 1 && u64::from(n.left.key) + 1 == u64::from(n.key)
}
