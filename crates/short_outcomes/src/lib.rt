// The outcome of a step that makes at most one node, as a stack's and a queue's do.
#![tactic(auto)]

ghost use Rattle.std.specs.Prelude.{◌≡◌};
ghost use Rattle.leaf_spec.specs.Convert.{to_link};
ghost use Rattle.operation_spec.specs.Method.{to_step_answer, nothing};
ghost use Rattle.short_outcomes.specs.OneFetch.{to_one_outcome};

use operation_spec::{Answer, Full};
use slot_spec::{Link, Node};

// The node that the step made, if it made one, the root link, the entries and the answer.
#[derive(Clone, Copy)]
pub struct OneMade {
    pub node: Option<Node>,
    pub root: Link,
    pub entries: u16,
    pub answer: Result<Answer, Full>,
}

// A step that makes none.
pub fn none_made(root: Link, entries: u16, answer: Result<Answer, Full>) -> OneMade
    ensures { to_one_outcome result ≡ nothing (to_link root) entries (to_step_answer answer) }
{
    OneMade {
        node: None,
        root,
        entries,
        answer,
    }
}
