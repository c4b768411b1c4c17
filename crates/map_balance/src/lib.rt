// A node's balance, and what it decides.
#![tactic(auto)]

ghost use Rattle.std.specs.Prelude.{◌≡◌};
ghost use Rattle.method_spec.specs.Map.{balance_of, balance_from, tall, leans_out};
ghost use Rattle.leaf_spec.specs.Convert.{to_node};

use slot_spec::Node;

// Document 01's balance: "left height minus right height, from -2 to 2". Kept as comparisons: a difference cut off by
// `clamp` goes through wider numbers, and says none of the five cases.
fn balance(n: Node) -> i8
    ensures { result ≡ balance_of (to_node n) }
{
    let left = n.left.height;
    let right = n.right.height;
    if left > right {
        if left - right > 1 {
            return 2;
        }
        return 1;
    }
    if right > left {
        if right - left > 1 {
            return -2;
        }
        return -1;
    }
    0
}

// The balance seen from a side, the left or else the right, where it is negated.
pub fn lean(left: bool, n: Node) -> i8
    ensures { result ≡ balance_from left (to_node n) }
{
    let b = balance(n);
    if left { b } else { -b }
}

// A side is too tall: the node's balance, seen from there, is 2.
pub fn is_tall(left: bool, n: Node) -> bool
    ensures { result ≡ tall left (to_node n) }
{
    lean(left, n) == 2
}

// The child on a tall side gives a single rotation: its balance, seen from there, is 0 or more.
pub fn leans_out(left: bool, n: Node) -> bool
    ensures { result ≡ leans_out left (to_node n) }
{
    lean(left, n) >= 0
}
