// Flush: blocks sink along the path of a leaf. Dequeue: a put-back, and then a flush.
ghost use Rattle.std.specs.Prelude.{◌≡◌, ◌+◌, ◌<◌, ◌≤◌, true, [], ◌∷◌, ◌++◌, length, is_ok, is_err, IfOk, if◌then◌else◌, Some, None, OnOk};
ghost use Rattle.row.specs.Rows.{Moved, Frame, decoded, decoded_row, log_in, row_in};
ghost use Rattle.row.specs.Trials.{dequeue_moves, flush_moves, refusal, refusal_of, tree_buckets};
ghost use Rattle.std.specs.Result.{result_err};
ghost use Rattle.steps.specs.Steps.{bucket, dequeued, flushed, flushed_to, with_bucket};
ghost use Rattle.tree.specs.Choice.{moved_child, moved_parent};
ghost use Rattle.tree.specs.Entries.{dequeue_entries, flush_entries};
ghost use Rattle.tree.specs.Paths.{path};

use crate::buckets::{path_bucket, read_bucket, write_bucket};
use crate::fault::RowFault;
use crate::moves::{dequeue_moves, flush_moves};
use crate::queueing::put_back_root;
use crate::row::Row;
use crate::trial::along;
use store::interface::BucketStore;
use tree::bucket::Bucket;
use tree::numbers::Leaf;
use tree::path::Path;
use tree::queue::Queue;

// The bucket at a layer of the path is in hand. The one below it is read, at most one block moves down, and the one in hand is
// written. The one below is handed on: a block that came down may move on.
fn flush_layer<S: BucketStore>(store: &mut S, mut parent: Bucket, along: Path, layer: u32) -> Bucket
    requires layer { layer < along.depth }
    requires fits { tree_buckets along.depth ≤ length (S.BucketStore.buckets store.old) }
    requires free { length (S.BucketStore.log store.old) + 2 ≤ S.BucketStore.span store.old }
    ensures hands { result.places ≡ moved_child along.depth along.leaf.0 (layer + 1) parent.places (bucket (decoded (S.BucketStore.buckets store.old)) (path along.depth along.leaf.0 (layer + 1))) }
    ensures holds { decoded (S.BucketStore.buckets store.new) ≡ with_bucket (decoded (S.BucketStore.buckets store.old)) (path along.depth along.leaf.0 layer) (moved_parent along.depth along.leaf.0 (layer + 1) parent.places (bucket (decoded (S.BucketStore.buckets store.old)) (path along.depth along.leaf.0 (layer + 1)))) }
    ensures moves { Moved S.BucketStore store.old store.new (path along.depth along.leaf.0 (layer + 1) ∷ path along.depth along.leaf.0 layer ∷ []) }
{
    let mut child = read_bucket(store, path_bucket(along, layer + 1));
    parent.move_down(&mut child, along.depth(), along.leaf(), layer + 1);
    write_bucket(store, path_bucket(along, layer), &parent);
    child
}

// Reads the root, goes down layer by layer, and writes the last bucket.
fn flush_path<S: BucketStore>(store: &mut S, along: Path)
    requires fits { tree_buckets along.depth ≤ length (S.BucketStore.buckets store.old) }
    requires free { length (S.BucketStore.log store.old) + flush_moves along.depth ≤ S.BucketStore.span store.old }
    ensures holds { decoded (S.BucketStore.buckets store.new) ≡ flushed_to along.depth along.leaf.0 (decoded (S.BucketStore.buckets store.old)) along.depth }
    ensures moves { Moved S.BucketStore store.old store.new (flush_entries along.depth along.leaf.0) }
{
    let mut hand = read_bucket(store, path_bucket(along, 0));
    for layer in 0..along.depth() {
        hand = flush_layer(store, hand, along, layer);
    }
    write_bucket(store, path_bucket(along, along.depth()), &hand);
}

// At each layer of the path at most one block moves one bucket down, root first: a moved block may move on. For whoever has a store
// by reference and no row, as `dequeue` below.
pub fn flush<S: BucketStore>(store: &mut S, depth: u32, leaf: Leaf) -> Result<(), RowFault>
    ensures answer { result_err result ≡ refusal depth (S.BucketStore.buckets store.old) (Some leaf) (flush_moves depth) (S.BucketStore.span store.old) (S.BucketStore.log store.old) None }
    ensures buckets { OnOk result (decoded (S.BucketStore.buckets store.new) ≡ flushed_to depth leaf.0 (decoded (S.BucketStore.buckets store.old)) depth) }
    ensures log { S.BucketStore.log store.new ≡ (if is_ok result then S.BucketStore.log store.old ++ flush_entries depth leaf.0 else S.BucketStore.log store.old) }
    ensures span { S.BucketStore.span store.new ≡ S.BucketStore.span store.old }
    ensures count { length (S.BucketStore.buckets store.new) ≡ length (S.BucketStore.buckets store.old) }
    ensures refused { is_err result ≡ true → store.new ≡ store.old }
{
    let along = along(store, depth, leaf, flush_moves(depth))?;
    flush_path(store, along);
    Ok(())
}

// The queue's first block goes back to the root, and then blocks sink along the path of the leaf.
pub(crate) fn dequeue_in_place<S: BucketStore>(
    store: &mut S,
    queue: &mut Queue,
    depth: u32,
    leaf: Leaf,
) -> Result<(), RowFault>
    ensures answer { result_err result ≡ refusal depth (S.BucketStore.buckets store.old) (Some leaf) (dequeue_moves depth) (S.BucketStore.span store.old) (S.BucketStore.log store.old) None }
    ensures row { OnOk result (decoded_row (S.BucketStore.buckets store.new) queue.new ≡ dequeued depth leaf.0 (decoded_row (S.BucketStore.buckets store.old) queue.old)) }
    ensures log { S.BucketStore.log store.new ≡ (if is_ok result then S.BucketStore.log store.old ++ dequeue_entries depth leaf.0 else S.BucketStore.log store.old) }
    ensures span { S.BucketStore.span store.new ≡ S.BucketStore.span store.old }
    ensures count { length (S.BucketStore.buckets store.new) ≡ length (S.BucketStore.buckets store.old) }
    ensures refused { is_err result ≡ true → store.new ≡ store.old }
    ensures waits { is_err result ≡ true → queue.new ≡ queue.old }
{
    let along = along(store, depth, leaf, dequeue_moves(depth))?;
    put_back_root(store, queue);
    flush_path(store, along);
    Ok(())
}

// The same with a queue that is handed in and comes back.
pub fn dequeue<S: BucketStore>(
    store: &mut S,
    mut queue: Queue,
    depth: u32,
    leaf: Leaf,
) -> Result<Queue, RowFault>
    ensures answer { result_err result ≡ refusal depth (S.BucketStore.buckets store.old) (Some leaf) (dequeue_moves depth) (S.BucketStore.span store.old) (S.BucketStore.log store.old) None }
    ensures row { IfOk result (λ q. decoded_row (S.BucketStore.buckets store.new) q ≡ dequeued depth leaf.0 (decoded_row (S.BucketStore.buckets store.old) queue)) }
    ensures log { S.BucketStore.log store.new ≡ (if is_ok result then S.BucketStore.log store.old ++ dequeue_entries depth leaf.0 else S.BucketStore.log store.old) }
    ensures span { S.BucketStore.span store.new ≡ S.BucketStore.span store.old }
    ensures count { length (S.BucketStore.buckets store.new) ≡ length (S.BucketStore.buckets store.old) }
    ensures refused { is_err result ≡ true → store.new ≡ store.old }
{
    dequeue_in_place(store, &mut queue, depth, leaf)?;
    Ok(queue)
}

impl<S: BucketStore> Row<S> {
    // At each layer of the path at most one block moves one bucket down, root first: a moved block may move on. The queue stays.
    pub fn flush(&mut self, leaf: Leaf) -> Result<(), RowFault>
        ensures answer { result_err result ≡ refusal_of S.BucketStore self.old (Some leaf) (flush_moves self.old.depth) None }
        ensures row { OnOk result (row_in S.BucketStore self.new ≡ flushed self.old.depth leaf.0 (row_in S.BucketStore self.old)) }
        ensures queue { self.new.queue ≡ self.old.queue }
        ensures log { log_in S.BucketStore self.new ≡ (if is_ok result then log_in S.BucketStore self.old ++ flush_entries self.old.depth leaf.0 else log_in S.BucketStore self.old) }
        ensures frame { Frame S.BucketStore self.old self.new }
        ensures refused { is_err result ≡ true → self.new ≡ self.old }
    {
        flush(&mut self.store, self.depth, leaf)
    }

    // The queue's first block goes back to the root, and then blocks sink along the path of the leaf.
    pub fn dequeue(&mut self, leaf: Leaf) -> Result<(), RowFault>
        ensures answer { result_err result ≡ refusal_of S.BucketStore self.old (Some leaf) (dequeue_moves self.old.depth) None }
        ensures row { OnOk result (row_in S.BucketStore self.new ≡ dequeued self.old.depth leaf.0 (row_in S.BucketStore self.old)) }
        ensures log { log_in S.BucketStore self.new ≡ (if is_ok result then log_in S.BucketStore self.old ++ dequeue_entries self.old.depth leaf.0 else log_in S.BucketStore self.old) }
        ensures frame { Frame S.BucketStore self.old self.new }
        ensures refused { is_err result ≡ true → self.new ≡ self.old }
    {
        dequeue_in_place(&mut self.store, &mut self.queue, self.depth, leaf)
    }
}
