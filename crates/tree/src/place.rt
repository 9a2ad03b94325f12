// A place of a bucket: ten words, the number of its block plus 1, the leaf, and eight words. An empty place is ten zeros.
ghost use Rattle.std.specs.Prelude.{◌≡◌, length};

use crate::block::BLOCK_WORDS;

mod methods;

// How many words a place has.
pub(crate) const PLACE_WORDS: usize = 2 + BLOCK_WORDS;

#[derive(Clone, Copy, PartialEq, Eq, Debug)]
pub struct Place {
    // the number of the block plus 1, or 0 where no block is
    mark: u32,
    leaf: u32,
    words: [u32; BLOCK_WORDS],
    ghost eight: { length words ≡ 8 },
}
