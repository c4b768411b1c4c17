// The keys of the nodes that a call holds.
#![tactic(auto)]

ghost use Rattle.std.specs.Prelude.{◌≡◌};
ghost use Rattle.slot_spec.specs.Tree.{among};

// The most nodes that a call holds, one for each fetch round: three for each level of the greatest height, 11.
pub const MOST_HELD: usize = 33;

// Whether the call holds a node with a key.
pub fn is_held(held: &[u32], key: u32) -> bool
    ensures { result ≡ among key held.now }
{
    held.contains(&key)
}
