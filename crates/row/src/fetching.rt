// Fetch: the block of a number leaves the path of a leaf and the queue.
ghost use Rattle.std.specs.Prelude.{◌≡◌, suc, ◌+◌, ◌≤◌, true, [], ◌∷◌, ◌++◌, length, is_ok, is_err, IfOk, if◌then◌else◌, Some, None, OnOk};
ghost use Rattle.row.specs.Rows.{Moved, Frame, decoded, decoded_row, log_in, row_in};
ghost use Rattle.row.specs.Trials.{fetch_moves, refusal, refusal_of, tree_buckets};
ghost use Rattle.std.specs.Result.{result_err};
ghost use Rattle.steps.specs.Steps.{bucket, cleared_to, fetched, found, found_to, with_bucket};
ghost use Rattle.tree.specs.Entries.{fetch_entries, fetch_to};
ghost use Rattle.tree.specs.Places.{taken, without};

use crate::buckets::{path_bucket, read_bucket, write_bucket};
use crate::fault::RowFault;
use crate::moves::fetch_moves;
use crate::row::Row;
use crate::trial::along;
use store::interface::BucketStore;
use tree::block::Block;
use tree::numbers::{BucketNumber, Leaf, RecordNumber};
use tree::path::Path;
use tree::queue::Queue;

// What a fetch answers: the queue as it is now, and the block, if there was one.
#[derive(Clone, Copy)]
pub struct Fetched {
    pub queue: Queue,
    pub block: Option<Block>,
}

// Takes the block of a number out of one bucket, which is read and written whether or not the block is there.
fn fetch_bucket<S: BucketStore>(
    store: &mut S,
    n: BucketNumber,
    number: RecordNumber,
) -> Option<Block>
    requires some { (1 ≤ n.0) × (n.0 ≤ length (S.BucketStore.buckets store.old)) }
    requires free { length (S.BucketStore.log store.old) + 2 ≤ S.BucketStore.span store.old }
    ensures answer { result ≡ taken number.0 (bucket (decoded (S.BucketStore.buckets store.old)) n.0) }
    ensures holds { decoded (S.BucketStore.buckets store.new) ≡ with_bucket (decoded (S.BucketStore.buckets store.old)) n.0 (without number.0 (bucket (decoded (S.BucketStore.buckets store.old)) n.0)) }
    ensures moves { Moved S.BucketStore store.old store.new (n.0 ∷ n.0 ∷ []) }
{
    let mut bucket = read_bucket(store, n);
    let block = bucket.take_out(number);
    write_bucket(store, n, &bucket);
    block
}

// Takes the block of a number out of every bucket of the path, root first. It goes all the way wherever the block is: the log
// must not tell where that was.
fn fetch_path<S: BucketStore>(store: &mut S, number: RecordNumber, along: Path) -> Option<Block>
    requires fits { tree_buckets along.depth ≤ length (S.BucketStore.buckets store.old) }
    requires free { length (S.BucketStore.log store.old) + fetch_moves along.depth ≤ S.BucketStore.span store.old }
    ensures answer { result ≡ found_to along.depth number.0 along.leaf.0 (decoded (S.BucketStore.buckets store.old)) (suc along.depth) }
    ensures holds { decoded (S.BucketStore.buckets store.new) ≡ cleared_to along.depth number.0 along.leaf.0 (decoded (S.BucketStore.buckets store.old)) (suc along.depth) }
    ensures moves { Moved S.BucketStore store.old store.new (fetch_to along.depth along.leaf.0 (suc along.depth)) }
{
    let mut found = None;
    for layer in 0..along.depth() + 1 {
        let n = path_bucket(along, layer);
        let block = fetch_bucket(store, n, number);
        found = found.or(block);
    }
    found
}

// Every bucket of the path is read and then written, wherever the block is, and then the queue is searched. It is
// changed, and not copied.
fn fetch_in_place<S: BucketStore>(
    store: &mut S,
    queue: &mut Queue,
    depth: u32,
    number: RecordNumber,
    leaf: Leaf,
) -> Result<Option<Block>, RowFault>
    ensures answer { result_err result ≡ refusal depth (S.BucketStore.buckets store.old) (Some leaf) (fetch_moves depth) (S.BucketStore.span store.old) (S.BucketStore.log store.old) None }
    ensures row { OnOk result (decoded_row (S.BucketStore.buckets store.new) queue.new ≡ fetched depth number.0 leaf.0 (decoded_row (S.BucketStore.buckets store.old) queue.old)) }
    ensures block { IfOk result (λ block. block ≡ found depth number.0 leaf.0 (decoded_row (S.BucketStore.buckets store.old) queue.old)) }
    ensures log { S.BucketStore.log store.new ≡ (if is_ok result then S.BucketStore.log store.old ++ fetch_entries depth leaf.0 else S.BucketStore.log store.old) }
    ensures span { S.BucketStore.span store.new ≡ S.BucketStore.span store.old }
    ensures count { length (S.BucketStore.buckets store.new) ≡ length (S.BucketStore.buckets store.old) }
    ensures refused { is_err result ≡ true → store.new ≡ store.old }
    ensures waits { is_err result ≡ true → queue.new ≡ queue.old }
{
    let along = along(store, depth, leaf, fetch_moves(depth))?;
    let block = fetch_path(store, number, along);
    let (left, waiting) = queue.take_out(number);
    *queue = left;
    Ok(block.or(waiting))
}

// The same with a queue that is handed in and comes back with the block. For whoever has a store by reference and no row.
pub fn fetch<S: BucketStore>(
    store: &mut S,
    mut queue: Queue,
    depth: u32,
    number: RecordNumber,
    leaf: Leaf,
) -> Result<Fetched, RowFault>
    ensures answer { result_err result ≡ refusal depth (S.BucketStore.buckets store.old) (Some leaf) (fetch_moves depth) (S.BucketStore.span store.old) (S.BucketStore.log store.old) None }
    ensures row { IfOk result (λ f. decoded_row (S.BucketStore.buckets store.new) f.queue ≡ fetched depth number.0 leaf.0 (decoded_row (S.BucketStore.buckets store.old) queue)) }
    ensures block { IfOk result (λ f. f.block ≡ found depth number.0 leaf.0 (decoded_row (S.BucketStore.buckets store.old) queue)) }
    ensures log { S.BucketStore.log store.new ≡ (if is_ok result then S.BucketStore.log store.old ++ fetch_entries depth leaf.0 else S.BucketStore.log store.old) }
    ensures span { S.BucketStore.span store.new ≡ S.BucketStore.span store.old }
    ensures count { length (S.BucketStore.buckets store.new) ≡ length (S.BucketStore.buckets store.old) }
    ensures refused { is_err result ≡ true → store.new ≡ store.old }
{
    let block = fetch_in_place(store, &mut queue, depth, number, leaf)?;
    Ok(Fetched { queue, block })
}

impl<S: BucketStore> Row<S> {
    // Every bucket of the path is read and then written, wherever the block is, and then the queue is searched. What is found is
    // answered.
    pub fn fetch(&mut self, number: RecordNumber, leaf: Leaf) -> Result<Option<Block>, RowFault>
        ensures answer { result_err result ≡ refusal_of S.BucketStore self.old (Some leaf) (fetch_moves self.old.depth) None }
        ensures block { IfOk result (λ block. block ≡ found self.old.depth number.0 leaf.0 (row_in S.BucketStore self.old)) }
        ensures row { OnOk result (row_in S.BucketStore self.new ≡ fetched self.old.depth number.0 leaf.0 (row_in S.BucketStore self.old)) }
        ensures log { log_in S.BucketStore self.new ≡ (if is_ok result then log_in S.BucketStore self.old ++ fetch_entries self.old.depth leaf.0 else log_in S.BucketStore self.old) }
        ensures frame { Frame S.BucketStore self.old self.new }
        ensures refused { is_err result ≡ true → self.new ≡ self.old }
    {
        fetch_in_place(&mut self.store, &mut self.queue, self.depth, number, leaf)
    }
}
