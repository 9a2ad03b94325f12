// How many buckets each step moves in a row: so many entries it makes in the log.
ghost use Rattle.row.specs.Trials.{dequeue_moves, fetch_moves, flush_moves, second_moves};
ghost use Rattle.std.specs.Prelude.{◌≡◌, ◌+◌, length, nat_le};
ghost use Rattle.tree.specs.Entries.{request_moves};

use crate::row::Row;
use store::interface::BucketStore;

// Each bucket of the path is read and written.
pub fn fetch_moves(depth: u32) -> u64
    ensures { result ≡ fetch_moves depth }
{
    2 * (u64::from(depth) + 1)
}

pub fn flush_moves(depth: u32) -> u64
    ensures { result ≡ flush_moves depth }
{
    2 * u64::from(depth) + 2
}

// A drain is one dequeue.
pub fn dequeue_moves(depth: u32) -> u64
    ensures { result ≡ dequeue_moves depth }
{
    flush_moves(depth) + 2
}

// The second half of a request dequeues twice.
pub fn second_moves(depth: u32) -> u64
    ensures { result ≡ second_moves depth }
{
    2 * dequeue_moves(depth)
}

pub fn request_moves(depth: u32) -> u64
    ensures { result ≡ request_moves depth }
{
    fetch_moves(depth) + second_moves(depth)
}

// Whether the log has so many free entries.
pub fn has_free<S: BucketStore>(store: &S, entries: u64) -> bool
    ensures { result ≡ nat_le (length (S.BucketStore.log store.now) + entries) (S.BucketStore.span store.now) }
{
    entries <= u64::from(store.log_span() - store.log_used())
}

impl<S> Row<S> {
    pub fn fetch_moves(&self) -> u64
        ensures { result ≡ fetch_moves self.now.depth }
    {
        fetch_moves(self.depth)
    }

    pub fn flush_moves(&self) -> u64
        ensures { result ≡ flush_moves self.now.depth }
    {
        flush_moves(self.depth)
    }

    pub fn dequeue_moves(&self) -> u64
        ensures { result ≡ dequeue_moves self.now.depth }
    {
        dequeue_moves(self.depth)
    }

    pub fn second_moves(&self) -> u64
        ensures { result ≡ second_moves self.now.depth }
    {
        second_moves(self.depth)
    }

    pub fn request_moves(&self) -> u64
        ensures { result ≡ request_moves self.now.depth }
    {
        request_moves(self.depth)
    }
}

impl<S: BucketStore> Row<S> {
    // Whether the log has so many free entries.
    pub fn has_free(&self, entries: u64) -> bool
        ensures { result ≡ nat_le (length (S.BucketStore.log self.now.store) + entries) (S.BucketStore.span self.now.store) }
    {
        has_free(&self.store, entries)
    }
}
