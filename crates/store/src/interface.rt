// What a bucket store means. Code above knows a store by this alone.
ghost use Rattle.std.specs.Prelude.{◌≡◌, ℕ, List, [], length, is_ok, if◌then◌else◌};
ghost use Rattle.store.specs.Stores.{Shape, bucket_of, done, entered, entry_of, refusal, replaced, zeroed};

use crate::fault::StoreFault;
use tree::bucket::BUCKET_WORDS;
use tree::numbers::BucketNumber;

// Within this trait a log can only grow: what works a request is bounded by it alone, and so cannot take an entry back.
pub trait BucketStore {
    // The buckets' words: bucket n at index n - 1.
    ghost buckets: { Self → List (List ℕ) };

    // How many entries the log can hold.
    ghost span: { Self → ℕ };

    // The number of each bucket that was moved, oldest first.
    ghost log: { Self → List ℕ };

    // What holds of every store.
    ghost shape: { (s : Self) → Shape (buckets s) (span s) (log s) };

    // Copies bucket n into the caller's place, and enters n.
    fn read(&mut self, n: BucketNumber, into: &mut [u32; BUCKET_WORDS]) -> Result<(), StoreFault>
        ensures answer { result ≡ done (refusal 1 (span self.old) (log self.old) (buckets self.old) n.0) }
        ensures place { into.new ≡ (if is_ok result then bucket_of (buckets self.old) n.0 else into.old) }
        ensures enters { log self.new ≡ (if is_ok result then entered (log self.old) n.0 else log self.old) }
        ensures holds { buckets self.new ≡ buckets self.old }
        ensures spans { span self.new ≡ span self.old };

    // Replaces bucket n by the caller's words, and enters n.
    fn write(&mut self, n: BucketNumber, words: &[u32; BUCKET_WORDS]) -> Result<(), StoreFault>
        ensures answer { result ≡ done (refusal 1 (span self.old) (log self.old) (buckets self.old) n.0) }
        ensures enters { log self.new ≡ (if is_ok result then entered (log self.old) n.0 else log self.old) }
        ensures holds { buckets self.new ≡ (if is_ok result then replaced (buckets self.old) n.0 words.now else buckets self.old) }
        ensures spans { span self.new ≡ span self.old };

    // How many buckets there are.
    fn bucket_count(&self) -> u32
        ensures { result ≡ length (buckets self.now) };

    // How many entries the log can hold.
    fn log_span(&self) -> u32
        ensures { result ≡ span self.now };

    // How many entries the log holds.
    fn log_used(&self) -> u32
        ensures { result ≡ length (log self.now) };

    // Entry k of the log, counted from 0, the oldest.
    fn log_entry(&self, k: u32) -> Result<BucketNumber, StoreFault>
        ensures { result ≡ entry_of (log self.now) k };
}

// What the owner of a store may do besides. Neither call is ever refused.
pub trait StoreUpkeep: BucketStore {
    // Makes every word of every bucket 0 and empties the log.
    fn clear(&mut self)
        ensures holds { Self.BucketStore.buckets self.new ≡ zeroed (Self.BucketStore.buckets self.old) }
        ensures empties { Self.BucketStore.log self.new ≡ [] }
        ensures spans { Self.BucketStore.span self.new ≡ Self.BucketStore.span self.old };

    // Empties the log and changes nothing else.
    fn tear_off(&mut self)
        ensures holds { Self.BucketStore.buckets self.new ≡ Self.BucketStore.buckets self.old }
        ensures empties { Self.BucketStore.log self.new ≡ [] }
        ensures spans { Self.BucketStore.span self.new ≡ Self.BucketStore.span self.old };
}
