// A bucket: four places.
ghost use Rattle.std.specs.Prelude.{◌≡◌, length};

use crate::place::{PLACE_WORDS, Place};

mod choice;
mod methods;

// How many words a bucket has.
pub const BUCKET_WORDS: usize = 4 * PLACE_WORDS;

#[derive(Clone, Copy, PartialEq, Eq, Debug)]
pub struct Bucket {
    places: [Place; 4],
    ghost four: { length places ≡ 4 },
}
