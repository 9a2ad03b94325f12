// The prescribed entries of the access log, one by one: entry k, from 0, of a fetch, a dequeue, a request and a drain.
ghost use Rattle.std.specs.Prelude.{◌≡◌, true, [], ◌∷◌};
ghost use Rattle.tree.specs.Entries.{Entry, are_leaves, dequeue_entries, drain_entries, fetch_entries, flush_entries, flush_layer, request_entries};
ghost use Rattle.tree.specs.Paths.{is_leaf};

use crate::numbers::{BucketNumber, Leaf};
use crate::path::Path;

// The root, which a put-back reads and writes.
pub const ROOT: BucketNumber = BucketNumber(1);

impl Path {
    // Entry k of a fetch along the path: each bucket twice.
    fn fetch_entry(self, k: u32) -> Option<BucketNumber>
        ensures { Entry true (fetch_entries self.depth self.leaf.0) k result }
    {
        self.bucket_at(k / 2)
    }

    // The layer of entry k of a flush.
    fn flush_layer(self, k: u32) -> u32
        ensures { result ≡ flush_layer self.depth k }
    {
        if k == 2 * self.depth() + 1 {
            self.depth()
        } else if k % 2 == 1 {
            k / 2 + 1
        } else {
            (k / 2).saturating_sub(1)
        }
    }

    // Entry k of a flush: the root; then each bucket and the one above it; then the last bucket again.
    fn flush_entry(self, k: u32) -> Option<BucketNumber>
        ensures { Entry true (flush_entries self.depth self.leaf.0) k result }
    {
        if k > 2 * self.depth() + 1 {
            return None;
        }
        self.bucket_at(self.flush_layer(k))
    }

    // Entry k of a dequeue: the root is read and written, and then comes a flush.
    fn dequeue_entry(self, k: u32) -> Option<BucketNumber>
        ensures { Entry true (dequeue_entries self.depth self.leaf.0) k result }
    {
        if k < 2 {
            Some(ROOT)
        } else {
            self.flush_entry(k - 2)
        }
    }
}

// Entry k of a fetch along a leaf's path.
pub fn fetch_entry(depth: u32, leaf: Leaf, k: u32) -> Option<BucketNumber>
    ensures { Entry (is_leaf depth leaf.0) (fetch_entries depth leaf.0) k result }
{
    Path::new(depth, leaf)?.fetch_entry(k)
}

// Entry k of a flush along a leaf's path.
pub fn flush_entry(depth: u32, leaf: Leaf, k: u32) -> Option<BucketNumber>
    ensures { Entry (is_leaf depth leaf.0) (flush_entries depth leaf.0) k result }
{
    Path::new(depth, leaf)?.flush_entry(k)
}

// Entry k of a dequeue along a leaf's path.
pub fn dequeue_entry(depth: u32, leaf: Leaf, k: u32) -> Option<BucketNumber>
    ensures { Entry (is_leaf depth leaf.0) (dequeue_entries depth leaf.0) k result }
{
    Path::new(depth, leaf)?.dequeue_entry(k)
}

// Entry k of a drain, which is one dequeue.
pub fn drain_entry(depth: u32, leaf: Leaf, k: u32) -> Option<BucketNumber>
    ensures { Entry (is_leaf depth leaf.0) (drain_entries depth leaf.0) k result }
{
    dequeue_entry(depth, leaf, k)
}

// Entry k of a request: a fetch along the shown leaf, and a dequeue along each of the two flush leaves.
pub fn request_entry(
    depth: u32,
    shown: Leaf,
    first: Leaf,
    second: Leaf,
    k: u32,
) -> Option<BucketNumber>
    ensures { Entry (are_leaves depth (shown ∷ first ∷ second ∷ [])) (request_entries depth shown.0 (first.0 ∷ second.0 ∷ [])) k result }
{
    let shown = Path::new(depth, shown)?;
    let first = Path::new(depth, first)?;
    let second = Path::new(depth, second)?;
    let fetched = 2 * depth + 2;
    let dequeued = 2 * depth + 4;
    if k < fetched {
        shown.fetch_entry(k)
    } else if k - fetched < dequeued {
        first.dequeue_entry(k - fetched)
    } else {
        second.dequeue_entry(k - fetched - dequeued)
    }
}
