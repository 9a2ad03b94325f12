// A leaf's path in a tree. No path exists whose tree lacks its leaf, so what takes one need not test.
ghost use Rattle.std.specs.Prelude.{◌≡◌, true, false, MatchOption};
ghost use Rattle.tree.specs.Paths.{AgreeOn, is_leaf, on_path, shared_buckets};

use crate::numbers::{BucketNumber, Leaf};
use crate::paths::is_leaf;

#[derive(Clone, Copy, PartialEq, Eq, Debug)]
pub struct Path {
    depth: u32,
    leaf: Leaf,
    ghost there: { is_leaf depth leaf.0 ≡ true },
}

impl Path {
    // The path of a leaf, unless a tree of that depth has no such leaf.
    pub fn new(depth: u32, leaf: Leaf) -> Option<Path>
        ensures { MatchOption result (is_leaf depth leaf.0 ≡ false) (λ p. (is_leaf depth leaf.0 ≡ true) × (p.depth ≡ depth) × (p.leaf ≡ leaf)) }
    {
        if is_leaf(depth, leaf) {
            Some(Path { depth, leaf })
        } else {
            None
        }
    }

    pub fn depth(self) -> u32
        ensures { result ≡ self.depth }
    {
        self.depth
    }

    pub fn leaf(self) -> Leaf
        ensures { result ≡ self.leaf }
    {
        self.leaf
    }

    // The path's bucket at a layer, the root being layer 0 and the leaf's own bucket the last.
    pub fn bucket_at(self, layer: u32) -> Option<BucketNumber>
        ensures { result ≡ on_path self.depth self.leaf layer }
    {
        if layer > self.depth {
            return None;
        }
        let last = (1u32 << self.depth) + self.leaf.0;
        Some(BucketNumber(last >> (self.depth - layer)))
    }

    // How many buckets it shares with the path of another leaf of the tree, from the root on.
    pub fn shared_with(self, other: Leaf) -> Option<u32>
        ensures { MatchOption result (is_leaf self.depth other.0 ≡ false) (λ k. (is_leaf self.depth other.0 ≡ true) × (k ≡ shared_buckets self.depth self.leaf.0 other.0) × AgreeOn self.depth self.leaf.0 other.0 k) }
    {
        if !is_leaf(self.depth, other) {
            return None;
        }
        let apart = 32 - (self.leaf.0 ^ other.0).leading_zeros();
        Some(self.depth + 1 - apart)
    }
}
