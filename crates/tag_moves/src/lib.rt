// What becomes of the held nodes where a store closes before the step: they are as they were fetched, with only tags moved.
#![tactic(auto)]

ghost use Rattle.std.specs.Prelude.{◌≡◌, ℕ, ◌≤◌, length};
ghost use Rattle.method_spec.specs.Node as method;
ghost use Rattle.method_spec.specs.Prog as prog;
ghost use Rattle.leaf_spec.specs.Convert.{to_link, to_node};
ghost use Rattle.bucket_call_spec.specs.Fetch.{moved_link, moved_node};
ghost use Rattle.operation_spec.specs.Method.{to_from};
ghost use Rattle.node_rows.specs.Row.{words, fetches};
ghost use Rattle.tag_moves.specs.Moved.{fetch_of, LinksMoved, TagsMoved};

use map_nodes::sides::{child_link, with_child};
use node_rows::{FETCHES, ROW, from_at, node_at, set_node};
use operation_spec::From;
use slot_spec::{Link, Node};

// The node after a fetch of the node m, under that tag: the link that was followed to m has the tag, if it stands in this node.
fn moved_in(n: Node, from: From, tag: u16) -> Node
    ensures { (m : method.Node ℕ) → m.tag ≡ tag → to_node result ≡ moved_node (fetch_of (to_from from) m) (to_node n) }
{
    match from {
        From::Root => n,
        From::Side(key, left) => {
            if n.key == key {
                let mut link = child_link(left, n);
                link.tag = tag;
                with_child(left, n, link)
            } else {
                n
            }
        }
    }
}

fn moved_root(root: Link, from: From, tag: u16) -> Link
    ensures { (m : method.Node ℕ) → m.tag ≡ tag → to_link result ≡ moved_link (fetch_of (to_from from) m) prog.root (to_link root) }
{
    let mut link = root;
    if let From::Root = from {
        link.tag = tag;
    }
    link
}

// All held nodes after one fetch.
fn move_links(held: &mut [u64; ROW], count: usize, from: From, tag: u16)
    requires { (length held.old ≡ words) × (count ≤ fetches) }
    ensures { (m : method.Node ℕ) → m.tag ≡ tag → LinksMoved (fetch_of (to_from from) m) count held.old held.new }
{
    for i in 0..count {
        let n = node_at(held, i);
        set_node(held, i, moved_in(n, from, tag));
    }
}

// Each link that was followed carries the new tag of the node that it led to; `froms` says where it stood. The root link then.
pub fn move_tags(held: &mut [u64; ROW], count: usize, froms: &[u64; FETCHES], root: Link) -> Link
    requires { (length held.old ≡ words) × ((count ≤ fetches) × (length froms.now ≡ fetches)) }
    ensures { TagsMoved count froms.now (to_link root) held.old held.new (to_link result) }
{
    let mut link = root;
    for i in 0..count {
        let n = node_at(held, i);
        let from = from_at(froms, i);
        move_links(held, count, from, n.tag);
        link = moved_root(link, from, n.tag);
    }
    link
}
