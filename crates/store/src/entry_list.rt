// A handed list of words with entries at its front, of equal width and oldest first.
ghost use Rattle.std.specs.Prelude.{◌≡◌, ◌+◌, ◌*◌, ◌<◌, ◌≤◌, [], length, MatchResult, slice_index_or};
ghost use Rattle.std.specs.Simd.{first_chunks};
ghost use Rattle.store.specs.Layout.{bucket_count, entry_span, overwritten, start_of};
ghost use Rattle.store.specs.Stores.{answered, refusal_by};

use crate::fault::StoreFault;
use crate::words::{copy_in, start_of};
use tree::numbers::BucketNumber;

// The most entries of a log.
const WIDEST_SPAN: usize = 65536;

// A list with a count beside it and no `Vec` of entries: a store works on lists that it was handed, asks for no memory, and
// hands them back as long as they were, the words past the entries in use as they were left.
#[derive(Drop)]
pub(crate) struct EntryList<const WIDTH: usize> {
    pub(crate) words: Vec<u32>,
    // how many entries are in use
    pub(crate) used: usize,
    ghost wide: { 0 < WIDTH },
    ghost few: { used ≤ entry_span WIDTH words.items },
}

// What each transfer runs is inlined, so that an entry of one word is written as a word.
impl<const WIDTH: usize> EntryList<WIDTH> {
    // The list just as it is, with no entry in use.
    pub(crate) fn new(words: Vec<u32>) -> EntryList<WIDTH>
        requires { 0 < WIDTH }
        ensures words { result.words ≡ words }
        ensures used { result.used ≡ 0 }
    {
        EntryList { used: 0, words }
    }

    // How many entries there is room for.
    pub(crate) fn span(&self) -> usize
        ensures { result ≡ entry_span WIDTH self.now.words.items }
    {
        (self.words.len() / WIDTH).min(WIDEST_SPAN)
    }

    // The entries in use.
    pub(crate) fn entries(&self) -> &[[u32; WIDTH]]
        ensures value { result.now ≡ first_chunks WIDTH self.now.used self.now.words.items }
        ensures count { length result.now ≡ self.now.used }
    {
        let (entries, _) = self.words.as_chunks();
        &entries[..self.used]
    }

    // Entry k of those in use, counted from 0, the oldest.
    pub(crate) fn entry(&self, k: u32) -> Result<&[u32; WIDTH], StoreFault>
        ensures { MatchResult result (λ e. (k < self.now.used) × (e.now ≡ slice_index_or (first_chunks WIDTH self.now.used self.now.words.items) k [])) (λ fault. (self.now.used ≤ k) × (fault ≡ StoreFault.NoEntry)) }
    {
        self.entries().get(k as usize).ok_or(StoreFault::NoEntry)
    }

    // Writes an entry behind those in use, over what is left there.
    #[inline]
    pub(crate) fn push(&mut self, entry: &[u32; WIDTH])
        requires { self.old.used < entry_span WIDTH self.old.words.items }
        ensures words { self.new.words.items ≡ overwritten self.old.words.items (WIDTH * self.old.used) entry.now }
        ensures used { self.new.used ≡ self.old.used + 1 }
    {
        copy_in(&mut self.words, WIDTH * self.used, entry);
        self.used += 1;
    }

    // No entry is in use any more; no word changes.
    pub(crate) fn clear(&mut self)
        ensures words { self.new.words ≡ self.old.words }
        ensures used { self.new.used ≡ 0 }
    {
        self.used = 0;
    }

    // Where bucket n begins in the words of a store's buckets, unless its transfer is refused: no entry is free, or there
    // is no such bucket.
    #[inline]
    pub(crate) fn admit(&self, buckets: &[u32], n: BucketNumber) -> Result<usize, StoreFault>
        ensures { result ≡ answered (refusal_by 1 (entry_span WIDTH self.now.words.items) self.now.used (bucket_count (length buckets.now)) n.0) (start_of n.0) }
    {
        if self.used >= self.span() {
            return Err(StoreFault::Full);
        }
        start_of(buckets, n).ok_or(StoreFault::NoBucket)
    }
}
