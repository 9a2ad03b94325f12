// The tail of a journal store: an entry for each transfer, which has its kind, the bucket's number and forty words.
ghost use Rattle.std.specs.Prelude.{◌≡◌, ◌∷◌, length, if◌then◌else◌, ◌==◌, Some, None};
ghost use Rattle.store.specs.Layout.{KeepsPast, buckets_in};
ghost use Rattle.store.specs.Tails.{IsLatestWrite, after_entry, kind_at, kind_word, number_at, replayed, words_at, write_kind};

use crate::entry_list::EntryList;
use crate::words::{copy_in, start_of};
use tree::bucket::BUCKET_WORDS;
use tree::numbers::BucketNumber;

// Words of an entry.
pub(crate) const ENTRY_WORDS: usize = 2 + BUCKET_WORDS;

// The kinds of entry, each with the word that stands for it.
#[derive(Clone, Copy, PartialEq, Eq, Debug)]
pub(crate) enum EntryKind {
    Read = 0,
    Write = 1,
}

// The words of an entry.
pub(crate) fn lay_out(
    kind: EntryKind,
    n: BucketNumber,
    words: &[u32; BUCKET_WORDS],
) -> [u32; ENTRY_WORDS]
    ensures { result ≡ kind_word kind ∷ n.0 ∷ words.now }
{
    let mut entry = [0; ENTRY_WORDS];
    entry[0] = kind as u32;
    entry[1] = n.0;
    entry[2..].copy_from_slice(words);
    entry
}

// The bucket that an entry writes, if it is a write. An entry by itself is a tail of one entry, and so the definitions of
// tails speak of it.
fn written(entry: &[u32; ENTRY_WORDS]) -> Option<BucketNumber>
    ensures { result ≡ (if kind_at entry.now 0 == write_kind then Some (record { 0 = number_at entry.now 0 }) else None) }
{
    if entry[0] == EntryKind::Write as u32 {
        Some(BucketNumber(entry[1]))
    } else {
        None
    }
}

// The forty words of an entry.
pub(crate) fn words_in(entry: &[u32; ENTRY_WORDS]) -> &[u32]
    ensures value { result.now ≡ words_at entry.now 0 }
    ensures count { length result.now ≡ 40 }
{
    &entry[2..]
}

// The latest entry that writes bucket n: the newest is asked first, since it is the one that counts.
pub(crate) fn latest_write(entries: &[[u32; ENTRY_WORDS]], n: BucketNumber) -> Option<usize>
    ensures { IsLatestWrite entries.now n.0 result }
{
    entries.iter().rposition(|entry| written(entry) == Some(n))
}

// Makes the write of an entry in the base, if it is one.
fn settle_entry(base: &mut [u32], entry: &[u32; ENTRY_WORDS])
    ensures holds { buckets_in base.new ≡ after_entry entry.now 0 (buckets_in base.old) }
    ensures past { KeepsPast base.old base.new }
{
    let Some(n) = written(entry) else {
        return;
    };
    if let Some(start) = start_of(base, n) {
        copy_in(base, start, words_in(entry));
    }
}

// Makes every write of the tail in the base, oldest first.
pub(crate) fn settle(base: &mut [u32], tail: &EntryList<ENTRY_WORDS>)
    ensures holds { buckets_in base.new ≡ replayed tail.now.used tail.now.words.items (buckets_in base.old) }
    ensures past { KeepsPast base.old base.new }
{
    for entry in tail.entries() {
        settle_entry(base, entry);
    }
}
