// The queue of a row: the blocks that wait for a place in the tree.
ghost use Rattle.std.specs.Prelude.{◌≡◌, ◌≤◌, true, length, take};
ghost use Rattle.tree.specs.Blocks.{apart, capacity};

use crate::block::Block;

mod methods;

// How many blocks a queue may hold.
pub const CAPACITY: usize = 32;

// Every queue that exists holds at most 32 blocks, packed from the front, no number twice. No derived `==`: it would compare
// what stands behind the first `count` blocks too, which is never seen.
#[derive(Clone, Copy)]
pub struct Queue {
    blocks: [Block; CAPACITY],
    count: usize,
    ghost long: { length blocks ≡ capacity },
    ghost few: { count ≤ capacity },
    ghost distinct: { apart (take count blocks) ≡ true },
}
