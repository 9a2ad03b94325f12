// What every step tests before it moves anything.
ghost use Rattle.std.specs.Prelude.{◌≡◌, ℕ, ◌+◌, ◌^◌, ◌<◌, ◌≤◌, length, IfOk, None, OnOk, Some, nat_le};
ghost use Rattle.row.specs.Trials.{first_fault, is_fit, refusal, tree_buckets};
ghost use Rattle.std.specs.List.{list_all};
ghost use Rattle.std.specs.Result.{result_err};
ghost use Rattle.tree.specs.Paths.{is_leaf};

use crate::fault::RowFault;
use crate::moves::has_free;
use crate::row::Row;
use store::interface::BucketStore;
use tree::numbers::Leaf;
use tree::path::Path;
use tree::paths::{is_depth, is_leaf};

// Whether there is a tree of that depth, and so many buckets are enough for it.
pub fn is_fit(depth: u32, count: u32) -> bool
    ensures { result ≡ is_fit depth count }
{
    is_depth(depth) && (1u32 << (depth + 1)) - 1 <= count
}

// Whether a tree of that depth has all of these leaves.
fn are_leaves(depth: u32, leaves: &[Leaf]) -> bool
    ensures { result ≡ list_all (λ m. is_leaf depth m.0) leaves.now }
{
    leaves.iter().all(|leaf| is_leaf(depth, *leaf))
}

// The refusal with the smallest number, if there is one, of a step that names these leaves and makes so many entries. Where something
// arrives, the caller tells whether the queue has room.
pub(crate) fn trial<S: BucketStore>(
    store: &S,
    depth: u32,
    leaves: &[Leaf],
    entries: u64,
    room: bool,
) -> Result<(), RowFault>
    ensures { result_err result ≡ first_fault (is_fit depth (length (S.BucketStore.buckets store.now))) (list_all (λ m. is_leaf depth m.0) leaves.now) (nat_le (length (S.BucketStore.log store.now) + entries) (S.BucketStore.span store.now)) room }
{
    if !is_fit(depth, store.bucket_count()) {
        return Err(RowFault::Unfit);
    }
    if !are_leaves(depth, leaves) {
        return Err(RowFault::NoLeaf);
    }
    if !has_free(store, entries) {
        return Err(RowFault::LogFull);
    }
    if !room {
        return Err(RowFault::QueueFull);
    }
    Ok(())
}

// The path of a leaf, for a step along it that makes so many entries, or that step's refusal.
pub(crate) fn along<S: BucketStore>(
    store: &S,
    depth: u32,
    leaf: Leaf,
    entries: u64,
) -> Result<Path, RowFault>
    ensures answer { result_err result ≡ refusal depth (S.BucketStore.buckets store.now) (Some leaf) entries (S.BucketStore.span store.now) (S.BucketStore.log store.now) None }
    ensures path { IfOk result (λ p. (p.depth ≡ depth) × (p.leaf ≡ leaf)) }
    ensures fits { OnOk result (tree_buckets depth ≤ length (S.BucketStore.buckets store.now)) }
    ensures free { OnOk result (length (S.BucketStore.log store.now) + entries ≤ S.BucketStore.span store.now) }
{
    trial(store, depth, &[leaf], entries, true)?;
    Ok(Path::new(depth, leaf).unwrap())
}

impl<S: BucketStore> Row<S> {
    // Whether the row's store has enough buckets for a tree of its depth.
    pub fn is_fit(&self) -> bool
        ensures { result ≡ is_fit self.now.depth (length (S.BucketStore.buckets self.now.store)) }
    {
        is_fit(self.depth, self.store.bucket_count())
    }
}
