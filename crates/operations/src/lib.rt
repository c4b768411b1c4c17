// What the operations of the structures share.
#![tactic(auto)]

ghost use Rattle.std.specs.Prelude.{◌≡◌, pred};
ghost use Rattle.method_spec.specs.Prog as prog;
ghost use Rattle.method_spec.specs.Node.{link_one};
ghost use Rattle.leaf_spec.specs.Convert.{to_link, to_node};
ghost use Rattle.operation_spec.specs.Method.{to_want};

use operation_spec::{Answer, From, Full, Outcome, Want};
use slot_spec::{Link, Node};

// The root link's node, as a wanted one.
pub fn start(root: Link) -> Want
    ensures { to_want result ≡ prog.start (to_link root) }
{
    Want {
        link: root,
        from: From::Root,
        low: None,
        high: None,
    }
}

// The entries, where one leaves.
pub fn one_less(entries: u16) -> u16
    ensures { result ≡ pred entries }
{
    entries.saturating_sub(1)
}

// The link to a node, of height 1.
pub fn link_one(n: Node) -> Link
    ensures { to_link result ≡ link_one (to_node n) }
{
    Link {
        height: 1,
        key: n.key,
        tag: n.tag,
    }
}

// A step that makes no nodes.
pub fn no_nodes(root: Link, entries: u16, answer: Result<Answer, Full>) -> Outcome
    ensures { result ≡ record { made = 0; root = root; entries = entries; answer = answer } }
{
    Outcome {
        made: 0,
        root,
        entries,
        answer,
    }
}
