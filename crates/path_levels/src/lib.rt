// The path of a leaf, level by level: where its buckets start, and from where on it is that of another leaf.
#![tactic(auto)]

ghost use Rattle.std.specs.Prelude.{◌≡◌, ◌+◌, ◌^◌, ◌<◌, ◌≤◌};
ghost use Rattle.slot_spec.specs.Tree.{path_bucket, bucket_start, bucket_length, tree_length};
ghost use Rattle.word_round_laws.specs.SlotRow.{levels};
ghost use Rattle.word_round_laws.specs.Fill.{meeting};

use tree_paths::{bucket_start, path_bucket};

// The slots of a bucket.
pub const BUCKET_SLOTS: usize = 4;

// The levels of the largest tree, from the leaves up to the root.
pub const LEVELS: usize = 9;

// The byte where the bucket of a leaf's path at a level starts; the bucket is within the tree.
pub fn start_at(size: usize, leaf: usize, level: usize) -> usize
    requires { (size < levels) × (leaf < 2 ^ size) × (level ≤ size) }
    ensures { (result ≡ bucket_start (path_bucket size leaf level)) × (result + bucket_length ≤ tree_length size) × (result < 2 ^ 24) }
{
    bucket_start(path_bucket(size, leaf, level))
}

// The level from which on two leaves' paths are one: by the highest digit in which the leaves differ.
pub fn meet(a: usize, b: usize) -> usize
    requires { (a < 2 ^ 16) × (b < 2 ^ 16) }
    ensures { result ≡ meeting a b }
{
    (64 - u64::leading_zeros((a ^ b) as u64)) as usize
}
