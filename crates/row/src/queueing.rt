// How a block comes to the queue, and how the first one goes back to the root.
ghost use Rattle.std.specs.Prelude.{◌≡◌, ◌+◌, ◌≤◌, true, [], ◌∷◌, ◌++◌, length, is_ok, is_err, IfOk, if◌then◌else◌, Some, None, OnOk};
ghost use Rattle.row.specs.Rows.{Frame, Moved, decoded_row, log_in, row_in};
ghost use Rattle.row.specs.Trials.{put_back_moves, refusal, refusal_of};
ghost use Rattle.std.specs.Result.{result_err};
ghost use Rattle.steps.specs.Steps.{arriving, put_back, put_back_from};
ghost use Rattle.tree.specs.Entries.{put_back_entries};
ghost use Rattle.tree.specs.Queues.{queued};

use crate::buckets::{read_bucket, write_bucket};
use crate::fault::RowFault;
use crate::row::Row;
use crate::trial::trial;
use store::interface::BucketStore;
use tree::block::Block;
use tree::bucket::Bucket;
use tree::prescribed::ROOT;
use tree::queue::Queue;

// The queue's first block goes to the root's lowest empty place. Where it finds none, or there is no block, nothing changes.
// The contract says it of a row that is a root alone.
fn put_first(root: &mut Bucket, queue: Queue) -> Queue
    ensures { record { buckets = root.new.places ∷ []; queue = queued result } ≡ put_back_from (root.old.places ∷ []) (queued queue) }
{
    let Some(block) = queue.first() else {
        return queue;
    };
    match root.put_in(block) {
        Ok(()) => queue.drop_first(),
        Err(_) => queue,
    }
}

// A block comes to the end of the queue, which is changed and not copied. It moves nothing in the store, which is asked only whether
// there is such a row. A block whose number waits already leaves the queue as it is.
pub(crate) fn arrive_in_place<S: BucketStore>(
    store: &S,
    queue: &mut Queue,
    depth: u32,
    block: Block,
) -> Result<(), RowFault>
    ensures answer { result_err result ≡ refusal depth (S.BucketStore.buckets store.now) (Some block.leaf) 0 (S.BucketStore.span store.now) (S.BucketStore.log store.now) (Some (length (queued queue.old))) }
    ensures row { OnOk result (decoded_row (S.BucketStore.buckets store.now) queue.new ≡ arriving (Some block) (decoded_row (S.BucketStore.buckets store.now) queue.old)) }
    ensures waits { is_err result ≡ true → queue.new ≡ queue.old }
{
    trial(store, depth, &[block.leaf], 0, !queue.is_full())?;
    if let Ok(longer) = queue.arrive(block) {
        *queue = longer;
    }
    Ok(())
}

// The same with a queue that is handed in and comes back. For whoever has a store by reference and no row, as `put_back` below.
pub fn arrive<S: BucketStore>(
    store: &S,
    mut queue: Queue,
    depth: u32,
    block: Block,
) -> Result<Queue, RowFault>
    ensures answer { result_err result ≡ refusal depth (S.BucketStore.buckets store.now) (Some block.leaf) 0 (S.BucketStore.span store.now) (S.BucketStore.log store.now) (Some (length (queued queue))) }
    ensures row { IfOk result (λ q. decoded_row (S.BucketStore.buckets store.now) q ≡ arriving (Some block) (decoded_row (S.BucketStore.buckets store.now) queue)) }
{
    arrive_in_place(store, &mut queue, depth, block)?;
    Ok(queue)
}

// The root is read and written also where nothing changes: the log must not tell whether a block waited or found a place.
pub(crate) fn put_back_root<S: BucketStore>(store: &mut S, queue: &mut Queue)
    requires some { 1 ≤ length (S.BucketStore.buckets store.old) }
    requires free { length (S.BucketStore.log store.old) + put_back_moves ≤ S.BucketStore.span store.old }
    ensures row { decoded_row (S.BucketStore.buckets store.new) queue.new ≡ put_back (decoded_row (S.BucketStore.buckets store.old) queue.old) }
    ensures moves { Moved S.BucketStore store.old store.new put_back_entries }
{
    let mut root = read_bucket(store, ROOT);
    *queue = put_first(&mut root, *queue);
    write_bucket(store, ROOT, &root);
}

// The queue's first block goes back to the root, if that has an empty place; otherwise it stays first.
fn put_back_in_place<S: BucketStore>(
    store: &mut S,
    queue: &mut Queue,
    depth: u32,
) -> Result<(), RowFault>
    ensures answer { result_err result ≡ refusal depth (S.BucketStore.buckets store.old) None put_back_moves (S.BucketStore.span store.old) (S.BucketStore.log store.old) None }
    ensures row { OnOk result (decoded_row (S.BucketStore.buckets store.new) queue.new ≡ put_back (decoded_row (S.BucketStore.buckets store.old) queue.old)) }
    ensures log { S.BucketStore.log store.new ≡ (if is_ok result then S.BucketStore.log store.old ++ put_back_entries else S.BucketStore.log store.old) }
    ensures span { S.BucketStore.span store.new ≡ S.BucketStore.span store.old }
    ensures count { length (S.BucketStore.buckets store.new) ≡ length (S.BucketStore.buckets store.old) }
    ensures refused { is_err result ≡ true → store.new ≡ store.old }
    ensures waits { is_err result ≡ true → queue.new ≡ queue.old }
{
    trial(store, depth, &[], 2, true)?;
    put_back_root(store, queue);
    Ok(())
}

// The same with a queue that is handed in and comes back.
pub fn put_back<S: BucketStore>(
    store: &mut S,
    mut queue: Queue,
    depth: u32,
) -> Result<Queue, RowFault>
    ensures answer { result_err result ≡ refusal depth (S.BucketStore.buckets store.old) None put_back_moves (S.BucketStore.span store.old) (S.BucketStore.log store.old) None }
    ensures row { IfOk result (λ q. decoded_row (S.BucketStore.buckets store.new) q ≡ put_back (decoded_row (S.BucketStore.buckets store.old) queue)) }
    ensures log { S.BucketStore.log store.new ≡ (if is_ok result then S.BucketStore.log store.old ++ put_back_entries else S.BucketStore.log store.old) }
    ensures span { S.BucketStore.span store.new ≡ S.BucketStore.span store.old }
    ensures count { length (S.BucketStore.buckets store.new) ≡ length (S.BucketStore.buckets store.old) }
    ensures refused { is_err result ≡ true → store.new ≡ store.old }
{
    put_back_in_place(store, &mut queue, depth)?;
    Ok(queue)
}

impl<S: BucketStore> Row<S> {
    // A block comes to the end of the queue. It moves nothing in the store, which is asked only whether there is such a row. A
    // block whose number waits already leaves the queue as it is.
    pub fn arrive(&mut self, block: Block) -> Result<(), RowFault>
        ensures answer { result_err result ≡ refusal_of S.BucketStore self.old (Some block.leaf) 0 (Some (length (queued self.old.queue))) }
        ensures row { OnOk result (row_in S.BucketStore self.new ≡ arriving (Some block) (row_in S.BucketStore self.old)) }
        ensures store { self.new.store ≡ self.old.store }
        ensures depth { self.new.depth ≡ self.old.depth }
        ensures refused { is_err result ≡ true → self.new ≡ self.old }
    {
        arrive_in_place(&self.store, &mut self.queue, self.depth, block)
    }

    // The queue's first block goes back to the root, if that has an empty place; otherwise it stays first.
    pub fn put_back(&mut self) -> Result<(), RowFault>
        ensures answer { result_err result ≡ refusal_of S.BucketStore self.old None put_back_moves None }
        ensures row { OnOk result (row_in S.BucketStore self.new ≡ put_back (row_in S.BucketStore self.old)) }
        ensures log { log_in S.BucketStore self.new ≡ (if is_ok result then log_in S.BucketStore self.old ++ put_back_entries else log_in S.BucketStore self.old) }
        ensures frame { Frame S.BucketStore self.old self.new }
        ensures refused { is_err result ≡ true → self.new ≡ self.old }
    {
        put_back_in_place(&mut self.store, &mut self.queue, self.depth)
    }
}
