// One bucket of a store as places. Once a trial has passed, the store has the bucket and its log a free entry, so that neither
// call can be refused.
ghost use Rattle.std.specs.Prelude.{◌≡◌, ℕ, ◌+◌, ◌<◌, ◌≤◌, [], ◌∷◌, ◌++◌, length};
ghost use Rattle.row.specs.Rows.{Moved, decoded};
ghost use Rattle.row.specs.Trials.{tree_buckets};
ghost use Rattle.steps.specs.Steps.{bucket, with_bucket};
ghost use Rattle.tree.specs.Paths.{path};

use store::interface::BucketStore;
use tree::bucket::{BUCKET_WORDS, Bucket};
use tree::numbers::BucketNumber;
use tree::path::Path;

// The bucket at a layer of a path. A store with enough buckets for the tree has it.
pub(crate) fn path_bucket(along: Path, layer: u32) -> BucketNumber
    requires { layer ≤ along.depth }
    ensures number { result.0 ≡ path along.depth along.leaf.0 layer }
    ensures there { (1 ≤ result.0) × (result.0 ≤ tree_buckets along.depth) }
{
    along.bucket_at(layer).unwrap()
}

pub(crate) fn read_bucket<S: BucketStore>(store: &mut S, n: BucketNumber) -> Bucket
    requires some { (1 ≤ n.0) × (n.0 ≤ length (S.BucketStore.buckets store.old)) }
    requires free { length (S.BucketStore.log store.old) < S.BucketStore.span store.old }
    ensures places { result.places ≡ bucket (decoded (S.BucketStore.buckets store.old)) n.0 }
    ensures holds { S.BucketStore.buckets store.new ≡ S.BucketStore.buckets store.old }
    ensures moves { Moved S.BucketStore store.old store.new (n.0 ∷ []) }
{
    let mut words = [0; BUCKET_WORDS];
    store.read(n, &mut words).unwrap();
    Bucket::from_words(&words)
}

pub(crate) fn write_bucket<S: BucketStore>(store: &mut S, n: BucketNumber, bucket: &Bucket)
    requires some { (1 ≤ n.0) × (n.0 ≤ length (S.BucketStore.buckets store.old)) }
    requires free { length (S.BucketStore.log store.old) < S.BucketStore.span store.old }
    ensures holds { decoded (S.BucketStore.buckets store.new) ≡ with_bucket (decoded (S.BucketStore.buckets store.old)) n.0 bucket.now.places }
    ensures moves { Moved S.BucketStore store.old store.new (n.0 ∷ []) }
{
    store.write(n, &bucket.to_words()).unwrap();
}
