// Paths from the root to a leaf.
ghost use Rattle.std.specs.Prelude.{◌≡◌, ℕ, ◌+◌, ◌-◌, ◌*◌, ◌/◌, ◌^◌, ◌<◌, ◌≤◌, true, false, ◌&&◌, MatchOption};
ghost use Rattle.tree.specs.Paths.{on_path, AgreeOn, ByHalves, OnLayer, PathLaws, children_of, is_depth, is_leaf, shared_buckets};

use crate::numbers::{BucketNumber, Leaf};
use crate::path::Path;

// The deepest tree that there is.
pub const DEEPEST: u32 = 12;

// Whether a tree may be so deep.
pub fn is_depth(depth: u32) -> bool
    ensures { result ≡ is_depth depth }
{
    (1..=DEEPEST).contains(&depth)
}

// Whether a tree of that depth has such a leaf. Its contract has the laws of all paths, of any depth.
#[tactic(auto, using(crate::proofs::PathLaws::path_laws))]
pub fn is_leaf(depth: u32, leaf: Leaf) -> bool
    ensures answer { result ≡ is_leaf depth leaf.0 }
    ensures laws { PathLaws }
{
    is_depth(depth) && leaf.0 < (1u32 << depth)
}

// The bucket of a leaf's path at a layer, the root being layer 0 and the leaf's own bucket the last.
pub fn bucket_at(depth: u32, leaf: Leaf, layer: u32) -> Option<BucketNumber>
    ensures { result ≡ on_path depth leaf layer }
{
    Path::new(depth, leaf)?.bucket_at(layer)
}

// How many buckets the paths of two leaves share, from the root on.
pub fn shared(depth: u32, one: Leaf, other: Leaf) -> Option<u32>
    ensures { MatchOption result (is_leaf depth one.0 && is_leaf depth other.0 ≡ false) (λ k. (k ≡ shared_buckets depth one.0 other.0) × AgreeOn depth one.0 other.0 k × (is_leaf depth one.0 && is_leaf depth other.0 ≡ true)) }
{
    Path::new(depth, one)?.shared_with(other)
}

// The one layer on which a bucket lies: the place of its number's highest bit. Bucket 0 does not exist.
pub fn layer_of(bucket: BucketNumber) -> Option<u32>
    ensures { MatchOption result (bucket.0 ≡ 0) (λ d. OnLayer d bucket.0 × ((e : ℕ) → OnLayer e bucket.0 → e ≡ d)) }
{
    bucket.0.checked_ilog2()
}

// The two buckets below a bucket, the left one first, unless their numbers do not fit.
pub fn children(bucket: BucketNumber) -> Option<(BucketNumber, BucketNumber)>
    ensures pair { result ≡ children_of bucket }
    ensures law { ByHalves }
{
    if bucket.0 == 0 || bucket.0 > u32::MAX / 2 {
        return None;
    }
    Some((BucketNumber(2 * bucket.0), BucketNumber(2 * bucket.0 + 1)))
}
