// Lists of words: where a bucket lies in one, and copying in and out.
ghost use Rattle.std.specs.Prelude.{◌≡◌, ◌+◌, ◌≤◌, length, take, drop, if◌then◌else◌, Some, None};
ghost use Rattle.store.specs.Layout.{blanked, bucket_count, overwritten, start_of, used_words};
ghost use Rattle.store.specs.Stores.{is_bucket};

use tree::bucket::BUCKET_WORDS;
use tree::numbers::BucketNumber;

// The most buckets of a store: those of a tree of depth 12.
const MOST_BUCKETS: usize = 8191;

// How many buckets are in a list of words: the whole ones, as far as a store may have them.
pub(crate) fn count_buckets(words: &[u32]) -> usize
    ensures { result ≡ bucket_count (length words.now) }
{
    (words.len() / BUCKET_WORDS).min(MOST_BUCKETS)
}

// Where bucket n begins in a list of words. They are numbered from 1, so there is no bucket 0.
pub(crate) fn start_of(words: &[u32], n: BucketNumber) -> Option<usize>
    ensures { result ≡ (if is_bucket (bucket_count (length words.now)) n.0 then Some (start_of n.0) else None) }
{
    let number = n.0 as usize;
    if number == 0 || number > count_buckets(words) {
        return None;
    }
    Some(BUCKET_WORDS * (number - 1))
}

// Copies the forty words from `at` on into the caller's place.
pub(crate) fn copy_out(words: &[u32], at: usize, into: &mut [u32; BUCKET_WORDS])
    requires { at + 40 ≤ length words.now }
    ensures { into.new ≡ take 40 (drop at words.now) }
{
    into.copy_from_slice(&words[at..at + BUCKET_WORDS]);
}

// Writes the caller's words over the list, from `at` on. By where they begin, since of a list written as chunks
// (`as_chunks_mut`) no contract says what it ends as.
#[inline]
pub(crate) fn copy_in(words: &mut [u32], at: usize, from: &[u32])
    requires { at + length from.now ≤ length words.old }
    ensures { words.new ≡ overwritten words.old at from.now }
{
    words[at..at + from.len()].copy_from_slice(from);
}

// Makes every word of every bucket 0.
pub(crate) fn blank(words: &mut [u32])
    ensures { words.new ≡ blanked (used_words words.old) words.old }
{
    let end = BUCKET_WORDS * count_buckets(words);
    words[..end].fill(0);
}
