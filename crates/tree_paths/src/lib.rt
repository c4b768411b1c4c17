// Bucket numbers, paths and places in the lent tree.
#![tactic(auto)]

ghost use Rattle.std.specs.Prelude.{◌≡◌, ◌+◌, ◌<◌, ◌≤◌, ◌^◌};
ghost use Rattle.slot_spec.specs.Tree.{leaf_bucket, path_bucket, passes, bucket_start, tree_length};

use slot_spec::BUCKET_LENGTH;

// The number of leaves of a tree of that size.
pub fn leaves(size: usize) -> usize
    requires { size ≤ 17 }
    ensures { (result ≡ 2 ^ size) × ((1 ≤ result) × (result ≤ 2 ^ 17)) }
{
    1 << size
}

// Document 01's "leaf t is bucket 2^k + t".
fn leaf_bucket(size: usize, leaf: usize) -> usize
    requires { (size ≤ 16) × (leaf < 2 ^ size) }
    ensures { result ≡ leaf_bucket size leaf }
{
    leaves(size) + leaf
}

// The bucket of a leaf's path at a level, counted from the leaf up: one shift for that many halvings.
pub fn path_bucket(size: usize, leaf: usize, level: usize) -> usize
    requires { (size ≤ 16) × (leaf < 2 ^ size) × (level ≤ size) }
    ensures { result ≡ path_bucket size leaf level }
{
    leaf_bucket(size, leaf) >> level
}

// Whether a tag's path passes a bucket. The length of the bucket's number says how far from the root it is, and the path has one
// bucket there.
pub fn passes_bucket(size: usize, tag: usize, bucket: usize) -> bool
    requires { (size ≤ 16) × (tag < 2 ^ size) }
    ensures { result ≡ passes size tag bucket }
{
    if bucket == 0 {
        return false;
    }
    let depth = bucket.ilog2() as usize;
    depth <= size && bucket == path_bucket(size, tag, size - depth)
}

// The byte where a bucket starts.
pub fn bucket_start(bucket: usize) -> usize
    requires { (1 ≤ bucket) × (bucket < 2 ^ 17) }
    ensures { result ≡ bucket_start bucket }
{
    BUCKET_LENGTH * (bucket - 1)
}

// The tree's length in bytes.
pub fn tree_length(size: usize) -> usize
    requires { size ≤ 16 }
    ensures { result ≡ tree_length size }
{
    BUCKET_LENGTH * (leaves(size + 1) - 1)
}
