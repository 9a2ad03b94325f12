// What every kind of record can do: lay a record out in eight words, and make one from any eight words.
ghost use Rattle.std.specs.Prelude.{◌≡◌, ℕ, List, length};

use tree::block::BLOCK_WORDS;

// Words of a record: it is a block's words.
pub const RECORD_WORDS: usize = BLOCK_WORDS;

pub trait RecordKind: Sized {
    // the words of a record
    ghost laid: { Self → List ℕ };

    // the record that any words give
    ghost made: { List ℕ → Self };

    fn to_words(&self) -> [u32; RECORD_WORDS]
        ensures { result ≡ laid self.now };

    fn from_words(words: [u32; RECORD_WORDS]) -> Self
        ensures { result ≡ made words };

    // a record is eight words
    ghost eight: { (x : Self) → length (laid x) ≡ 8 };

    // laid out and made again, a record is equal in every field
    ghost again: { (x : Self) → made (laid x) ≡ x };
}

// A record laid out and made again: whatever its kind, it is the record that was given.
pub fn round_trip<K: RecordKind>(held: &K) -> K
    ensures { result ≡ held.now }
{
    K::from_words(held.to_words())
}
