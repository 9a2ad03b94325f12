// How a bucket is read from forty words and laid out in them, and how a block leaves it or enters it.
ghost use Rattle.std.specs.Prelude.{◌≡◌, ℕ, ◌<◌, ◌≤◌, length, replicate, IfSome, Some, None, Ok, Err, MatchOption, slice_index_or};
ghost use Rattle.tree.specs.Places.{KeepsOthers, LaidAndRead, ReadAndLaid, empty_place, entered, entry_place, handed_back, lowest_empty, place_of, places_of, taken, without, words_of};

use super::{BUCKET_WORDS, Bucket};
use crate::block::Block;
use crate::numbers::RecordNumber;
use crate::place::{PLACE_WORDS, Place};

impl Bucket {
    // Four empty places.
    pub fn empty() -> Bucket
        ensures { result.places ≡ replicate 4 empty_place }
    {
        Bucket {
            places: [Place::empty(); 4],
        }
    }

    // The bucket that forty words are, whatever they are. Laid out again, it is the same forty words.
    #[tactic(auto, using(crate::proofs::BucketLaws::read_and_laid))]
    pub fn from_words(words: &[u32; BUCKET_WORDS]) -> Bucket
        ensures value { result.places ≡ places_of words.now }
        ensures again { ReadAndLaid }
    {
        Bucket {
            places: [
                Place::read(words, 0),
                Place::read(words, PLACE_WORDS),
                Place::read(words, 2 * PLACE_WORDS),
                Place::read(words, 3 * PLACE_WORDS),
            ],
        }
    }

    // The forty words of the bucket. Read again, they are the same bucket.
    #[tactic(auto, using(crate::proofs::BucketLaws::laid_and_read))]
    pub fn to_words(&self) -> [u32; BUCKET_WORDS]
        ensures value { result ≡ words_of self.now.places }
        ensures again { LaidAndRead }
    {
        let mut words = [0; BUCKET_WORDS];
        // by index, since the library does not say what `chunks_exact_mut` leaves
        for (i, place) in self.places.iter().enumerate() {
            place.write(&mut words, PLACE_WORDS * i);
        }
        words
    }

    // Place i, from 0 to 3.
    pub fn place(&self, i: usize) -> Option<Place>
        ensures { MatchOption result (4 ≤ i) (λ p. (i < 4) × (p ≡ slice_index_or self.now.places i empty_place)) }
    {
        self.places.get(i).copied()
    }

    // The lowest empty place.
    pub fn lowest_empty(&self) -> Option<usize>
        ensures value { result ≡ lowest_empty self.now.places }
        ensures within { IfSome result (λ i. i < 4) }
    {
        self.places.iter().position(|place| place.is_empty())
    }

    // The lowest place with a block of that number.
    pub fn place_of(&self, number: RecordNumber) -> Option<usize>
        ensures value { result ≡ place_of number.0 self.now.places }
        ensures within { IfSome result (λ i. i < 4) }
    {
        self.places.iter().position(|place| place.holds(number))
    }

    // Takes out the block of that number, from its lowest place: that place is emptied, and the other three keep their words.
    #[tactic(auto, using(crate::proofs::Firsts::taken_at))]
    pub fn take_out(&mut self, number: RecordNumber) -> Option<Block>
        ensures answer { result ≡ taken number.0 self.old.places }
        ensures after { self.new.places ≡ without number.0 self.old.places }
        ensures others { KeepsOthers (place_of number.0 self.old.places) self.old.places self.new.places }
    {
        let i = self.place_of(number)?;
        let block = self.places[i].block();
        self.places[i] = Place::empty();
        block
    }

    // Puts a block in the lowest empty place: the other three keep their words. One that finds no place, or whose number plus 1
    // does not fit a word, is handed back, and nothing changes.
    pub fn put_in(&mut self, block: Block) -> Result<(), Block>
        ensures answer { result ≡ handed_back block (entry_place block self.old.places) }
        ensures after { self.new.places ≡ entered block self.old.places }
        ensures others { KeepsOthers (entry_place block self.old.places) self.old.places self.new.places }
    {
        let place = Place::holding(&block).ok_or(block)?;
        let i = self.lowest_empty().ok_or(block)?;
        self.places[i] = place;
        Ok(())
    }
}
