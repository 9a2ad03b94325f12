// A row of a region.
use tree::queue::Queue;

// Its buckets on a store, the blocks that wait for a place in the tree, and the tree's depth. Every store, queue and depth are a
// row: each step tests whether they fit together.
#[derive(Drop)]
pub struct Row<S> {
    pub store: S,
    pub queue: Queue,
    pub depth: u32,
}
