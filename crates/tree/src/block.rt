// A block: what a row keeps under one of its numbers.
ghost use Rattle.std.specs.Prelude.{◌≡◌, length};

use crate::numbers::{Leaf, RecordNumber};

// How many words a block has, besides its number and its leaf.
pub const BLOCK_WORDS: usize = 8;

#[derive(Clone, Copy, PartialEq, Eq, Debug)]
pub struct Block {
    pub number: RecordNumber,
    pub leaf: Leaf,
    pub words: [u32; BLOCK_WORDS],
    ghost eight: { length words ≡ 8 },
}
