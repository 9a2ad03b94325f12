// What a place holds, and how a block and ten words become a place.
ghost use Rattle.std.specs.Prelude.{◌≡◌, ◌+◌, ◌≤◌, ◌&&◌, ◌++◌, take, drop, if◌then◌else◌, Some, None, nat_le};
ghost use Rattle.tree.specs.Choice.{score};
ghost use Rattle.tree.specs.Paths.{is_leaf};
ghost use Rattle.tree.specs.Places.{block_in, empty_place, fits_place, has_block, holds, is_empty, place_at, place_for, place_words};

use super::{PLACE_WORDS, Place};
use crate::block::{BLOCK_WORDS, Block};
use crate::bucket::BUCKET_WORDS;
use crate::numbers::{Leaf, RecordNumber};
use crate::paths::shared;
use std::array;

impl Place {
    // Ten zeros.
    pub fn empty() -> Place
        ensures { result ≡ empty_place }
    {
        Place {
            mark: 0,
            leaf: 0,
            words: [0; BLOCK_WORDS],
        }
    }

    // The ten words from a place on.
    pub(crate) fn read(from: &[u32; BUCKET_WORDS], at: usize) -> Place
        requires { at + PLACE_WORDS ≤ BUCKET_WORDS }
        ensures { result ≡ place_at from.now at }
    {
        Place {
            mark: from[at],
            leaf: from[at + 1],
            words: array::from_fn(|k| from[at + 2 + k]),
        }
    }

    // Puts the ten words into forty, from a place on.
    pub(crate) fn write(&self, into: &mut [u32; BUCKET_WORDS], at: usize)
        requires { at + PLACE_WORDS ≤ BUCKET_WORDS }
        ensures { into.new ≡ take at into.old ++ (place_words self.now ++ drop (at + 10) into.old) }
    {
        into[at] = self.mark;
        into[at + 1] = self.leaf;
        into[at + 2..at + PLACE_WORDS].copy_from_slice(&self.words);
    }

    // The place that holds a block; none where its number plus 1 does not fit a word.
    pub fn holding(block: &Block) -> Option<Place>
        ensures { result ≡ (if fits_place block.now then Some (place_for block.now) else None) }
    {
        let mark = block.number.0.checked_add(1)?;
        Some(Place {
            mark,
            leaf: block.leaf.0,
            words: block.words,
        })
    }

    // Whether all ten words are 0. A first word of 0 with others that are not is no empty place.
    pub fn is_empty(&self) -> bool
        ensures { result ≡ is_empty self.now }
    {
        *self == Place::empty()
    }

    // Whether the place has a block of that number.
    pub fn holds(&self, number: RecordNumber) -> bool
        ensures { result ≡ holds number.0 self.now }
    {
        self.mark != 0 && self.mark - 1 == number.0
    }

    // The block of the place, where there is one.
    pub fn block(&self) -> Option<Block>
        ensures { result ≡ (if has_block self.now then Some (block_in self.now) else None) }
    {
        let number = self.mark.checked_sub(1)?;
        Some(Block {
            number: RecordNumber(number),
            leaf: Leaf(self.leaf),
            words: self.words,
        })
    }

    // How many buckets the path of the place's block shares with the path of a leaf, if they share the one at a layer: the
    // block may then lie there. Else 0, as where there is no block, or no such depth, leaf or layer.
    pub fn score(&self, depth: u32, leaf: Leaf, layer: u32) -> u32
        ensures { result ≡ (if is_leaf depth leaf.0 && nat_le layer depth then score depth leaf.0 layer self.now else 0) }
    {
        if self.mark == 0 {
            return 0;
        }
        match shared(depth, Leaf(self.leaf), leaf) {
            Some(buckets) if buckets > layer => buckets,
            _ => 0,
        }
    }
}
