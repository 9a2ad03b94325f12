// What a queue answers and how blocks come and go. A change makes a whole new queue: the old one is given up for it.
ghost use Rattle.std.specs.Prelude.{◌≡◌, ◌<◌, ◌≤◌, true, false, [], ◌∷◌, ◌++◌, length, position, MatchResult, ◌==◌};
ghost use Rattle.tree.specs.Blocks.{accepts, block_of, capacity, first_block, has_number, lacking, numbered, others, rest_of};
ghost use Rattle.tree.specs.Queues.{QueueLaw, queued};

use crate::block::{BLOCK_WORDS, Block};
use crate::numbers::{Leaf, RecordNumber};
use crate::queue::{CAPACITY, Queue};

impl Queue {
    // A queue of no blocks. What fills the array is never seen: only the first `count` blocks are in the queue.
    pub fn empty() -> Queue
        ensures { queued result ≡ [] }
    {
        let blank = Block {
            number: RecordNumber(0),
            leaf: Leaf(0),
            words: [0; BLOCK_WORDS],
        };
        Queue {
            blocks: [blank; CAPACITY],
            count: 0,
        }
    }

    // How many blocks the queue has. Its contract has the law of every queue.
    pub fn len(&self) -> usize
        ensures count { result ≡ length (queued self.now) }
        ensures few { result ≤ 32 }
        ensures invariant { QueueLaw }
    {
        self.count
    }

    pub fn is_empty(&self) -> bool
        ensures { result ≡ (length (queued self.now) == 0) }
    {
        self.len() == 0
    }

    pub fn is_full(&self) -> bool
        ensures { result ≡ (length (queued self.now) == capacity) }
    {
        self.len() == CAPACITY
    }

    // The block that has waited longest.
    pub fn first(&self) -> Option<Block>
        ensures { result ≡ first_block (queued self.now) }
    {
        self.waiting().first().copied()
    }

    // The blocks of the queue, the one that has waited longest first.
    fn waiting(&self) -> &[Block]
        ensures { result.now ≡ queued self.now }
    {
        &self.blocks[..self.count]
    }

    // Whether a block of that number waits.
    fn has(&self, number: RecordNumber) -> bool
        ensures { result ≡ has_number number.0 (queued self.now) }
    {
        self.waiting().iter().any(|block| block.number == number)
    }

    // The index of the block of a number.
    fn position(&self, number: RecordNumber) -> Option<usize>
        ensures { result ≡ position (numbered number.0) (queued self.now) }
    {
        self.waiting()
            .iter()
            .position(|block| block.number == number)
    }

    pub fn find(&self, number: RecordNumber) -> Option<Block>
        ensures { result ≡ block_of number.0 (queued self.now) }
    {
        match self.position(number) {
            Some(i) => Some(self.blocks[i]),
            None => None,
        }
    }

    // The block of a number leaves, and the others stay in order.
    pub fn take_out(self, number: RecordNumber) -> (Queue, Option<Block>)
        ensures rest { queued result.0 ≡ others number.0 (queued self) }
        ensures taken { result.1 ≡ block_of number.0 (queued self) }
    {
        match self.position(number) {
            Some(i) => (self.remove(i), Some(self.blocks[i])),
            None => (self, None),
        }
    }

    // The block goes to the end, unless the queue is full or has a block of its number: then both are handed back as they were.
    pub fn arrive(self, block: Block) -> Result<Queue, (Queue, Block)>
        ensures { MatchResult result (λ q. (accepts block (queued self) ≡ true) × (queued q ≡ queued self ++ block ∷ [])) (λ e. (accepts block (queued self) ≡ false) × (e.0 ≡ self) × (e.1 ≡ block)) }
    {
        if self.is_full() || self.has(block.number) {
            return Err((self, block));
        }
        let mut blocks = self.blocks;
        blocks[self.count] = block;
        Ok(Queue {
            blocks,
            count: self.count + 1,
        })
    }

    // The first block leaves, and the others move up. An empty queue stays as it is.
    pub fn drop_first(self) -> Queue
        ensures rest { queued result ≡ rest_of (queued self) }
        ensures none { queued self ≡ [] → result ≡ self }
    {
        if self.count == 0 {
            return self;
        }
        self.remove(0)
    }

    // The block at an index leaves, and the later blocks move up, so that the queue stays packed and in order. What stands behind the
    // queue's blocks is not moved with them.
    fn remove(self, i: usize) -> Queue
        requires { i < self.count }
        ensures { queued result ≡ lacking i (queued self) }
    {
        let mut blocks = self.blocks;
        blocks.copy_within(i + 1..self.count, i);
        Queue {
            blocks,
            count: self.count - 1,
        }
    }
}
