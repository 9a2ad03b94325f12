// The halves of a request. The first is a fetch along the leaf that a map shows.
ghost use Rattle.row.specs.Rows.{Frame, decoded_row, log_in, row_in};
ghost use Rattle.row.specs.Trials.{arrival_fits, has_room, in_range, is_fit, second_refusal, second_refusal_of, waiting_for};
ghost use Rattle.std.specs.Prelude.{◌≡◌, true, [], ◌∷◌, ◌++◌, length, is_ok, is_err, IfOk, if◌then◌else◌, OnOk};
ghost use Rattle.std.specs.Result.{result_err};
ghost use Rattle.steps.specs.Steps.{arriving, second_half};
ghost use Rattle.tree.specs.Entries.{dequeues_entries};
ghost use Rattle.tree.specs.Queues.{queued};

use crate::fault::RowFault;
use crate::flushing::dequeue_in_place;
use crate::moves::second_moves;
use crate::queueing::arrive_in_place;
use crate::row::Row;
use crate::trial::trial;
use store::interface::BucketStore;
use tree::block::Block;
use tree::numbers::Leaf;
use tree::paths::is_depth;
use tree::queue::Queue;

// A leaf reduced to the row's range. Of a map in order this changes nothing: of any other it keeps the work from being refused
// half way.
pub fn in_range(leaf: Leaf, depth: u32) -> Leaf
    ensures { result.0 ≡ in_range depth leaf.0 }
{
    if !is_depth(depth) {
        return Leaf(0);
    }
    Leaf(leaf.0 % (1u32 << depth))
}

// How a second half is refused. A full queue refuses only what arrives.
fn second_trial<S: BucketStore>(
    store: &S,
    queue: &Queue,
    depth: u32,
    arrives: Option<Block>,
    first: Leaf,
    second: Leaf,
) -> Result<(), RowFault>
    ensures { result_err result ≡ second_refusal depth (length (S.BucketStore.buckets store.now)) arrives first second (S.BucketStore.span store.now) (length (S.BucketStore.log store.now)) (length (queued queue.now)) }
{
    let entries = second_moves(depth);
    match arrives {
        Some(block) => trial(
            store,
            depth,
            &[block.leaf, first, second],
            entries,
            !queue.is_full(),
        ),
        None => trial(store, depth, &[first, second], entries, true),
    }
}

// What arrives, if something does, comes to the end of the queue.
fn join<S: BucketStore>(store: &S, queue: &mut Queue, depth: u32, arrives: Option<Block>)
    requires fit { is_fit depth (length (S.BucketStore.buckets store.now)) ≡ true }
    requires leaf { arrival_fits depth arrives ≡ true }
    requires room { has_room (waiting_for arrives (length (queued queue.old))) ≡ true }
    ensures { decoded_row (S.BucketStore.buckets store.now) queue.new ≡ arriving arrives (decoded_row (S.BucketStore.buckets store.now) queue.old) }
{
    if let Some(block) = arrives {
        arrive_in_place(store, queue, depth, block).unwrap();
    }
}

// A block arrives, or none, and a dequeue follows along each flush leaf. Both dequeues are made whether or not a block arrives: the
// log must not tell.
fn second_half_in_place<S: BucketStore>(
    store: &mut S,
    queue: &mut Queue,
    depth: u32,
    arrives: Option<Block>,
    first: Leaf,
    second: Leaf,
) -> Result<(), RowFault>
    ensures answer { result_err result ≡ second_refusal depth (length (S.BucketStore.buckets store.old)) arrives first second (S.BucketStore.span store.old) (length (S.BucketStore.log store.old)) (length (queued queue.old)) }
    ensures row { OnOk result (decoded_row (S.BucketStore.buckets store.new) queue.new ≡ second_half depth arrives (first.0 ∷ second.0 ∷ []) (decoded_row (S.BucketStore.buckets store.old) queue.old)) }
    ensures log { S.BucketStore.log store.new ≡ (if is_ok result then S.BucketStore.log store.old ++ dequeues_entries depth (first.0 ∷ second.0 ∷ []) else S.BucketStore.log store.old) }
    ensures span { S.BucketStore.span store.new ≡ S.BucketStore.span store.old }
    ensures count { length (S.BucketStore.buckets store.new) ≡ length (S.BucketStore.buckets store.old) }
    ensures refused { is_err result ≡ true → store.new ≡ store.old }
    ensures waits { is_err result ≡ true → queue.new ≡ queue.old }
{
    second_trial(store, queue, depth, arrives, first, second)?;
    join(store, queue, depth, arrives);
    dequeue_in_place(store, queue, depth, first).unwrap();
    dequeue_in_place(store, queue, depth, second).unwrap();
    Ok(())
}

// The same with a queue that is handed in and comes back. For whoever has a store by reference and no row.
pub fn second_half<S: BucketStore>(
    store: &mut S,
    mut queue: Queue,
    depth: u32,
    arrives: Option<Block>,
    first: Leaf,
    second: Leaf,
) -> Result<Queue, RowFault>
    ensures answer { result_err result ≡ second_refusal depth (length (S.BucketStore.buckets store.old)) arrives first second (S.BucketStore.span store.old) (length (S.BucketStore.log store.old)) (length (queued queue)) }
    ensures row { IfOk result (λ q. decoded_row (S.BucketStore.buckets store.new) q ≡ second_half depth arrives (first.0 ∷ second.0 ∷ []) (decoded_row (S.BucketStore.buckets store.old) queue)) }
    ensures log { S.BucketStore.log store.new ≡ (if is_ok result then S.BucketStore.log store.old ++ dequeues_entries depth (first.0 ∷ second.0 ∷ []) else S.BucketStore.log store.old) }
    ensures span { S.BucketStore.span store.new ≡ S.BucketStore.span store.old }
    ensures count { length (S.BucketStore.buckets store.new) ≡ length (S.BucketStore.buckets store.old) }
    ensures refused { is_err result ≡ true → store.new ≡ store.old }
{
    second_half_in_place(store, &mut queue, depth, arrives, first, second)?;
    Ok(queue)
}

impl<S: BucketStore> Row<S> {
    // A leaf reduced to the row's range.
    pub fn in_range(&self, leaf: Leaf) -> Leaf
        ensures { result.0 ≡ in_range self.now.depth leaf.0 }
    {
        in_range(leaf, self.depth)
    }

    // A block arrives, or none, and a dequeue follows along each flush leaf.
    pub fn second_half(
        &mut self,
        arrives: Option<Block>,
        first: Leaf,
        second: Leaf,
    ) -> Result<(), RowFault>
        ensures answer { result_err result ≡ second_refusal_of S.BucketStore self.old arrives first second }
        ensures row { OnOk result (row_in S.BucketStore self.new ≡ second_half self.old.depth arrives (first.0 ∷ second.0 ∷ []) (row_in S.BucketStore self.old)) }
        ensures log { log_in S.BucketStore self.new ≡ (if is_ok result then log_in S.BucketStore self.old ++ dequeues_entries self.old.depth (first.0 ∷ second.0 ∷ []) else log_in S.BucketStore self.old) }
        ensures frame { Frame S.BucketStore self.old self.new }
        ensures refused { is_err result ≡ true → self.new ≡ self.old }
    {
        second_half_in_place(
            &mut self.store,
            &mut self.queue,
            self.depth,
            arrives,
            first,
            second,
        )
    }
}
