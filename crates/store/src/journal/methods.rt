// The calls of a journal store.
ghost use Rattle.std.specs.Prelude.{◌≡◌, ◌+◌, ◌*◌, ◌<◌, ◌∷◌, true, false, [], ◌++◌, length, drop, is_ok, if◌then◌else◌};
ghost use Rattle.store.specs.Journals.{journal_base, journal_buckets, journal_log, journal_shape, journal_span, journal_tail};
ghost use Rattle.store.specs.Layout.{KeepsPast, blanked, buckets_in, laid_out, overwritten, start_of, used_words};
ghost use Rattle.store.specs.Stores.{answered, bucket_of, done, entered, is_bucket, refusal, replaced, zeroed};
ghost use Rattle.store.specs.Tails.{entry_words, kind_word, latest, read_entry, tail_span, write_entry};

use crate::entry_list::EntryList;
use crate::fault::StoreFault;
use crate::interface::{BucketStore, StoreUpkeep};
use crate::journal::JournalStore;
use crate::tail::{EntryKind, latest_write, lay_out, settle, words_in};
use crate::words::{blank, copy_out, count_buckets};
use tree::bucket::BUCKET_WORDS;
use tree::numbers::BucketNumber;

impl JournalStore {
    // A store on these lists, just as they are, with an empty log.
    pub fn new(base: Vec<u32>, tail: Vec<u32>) -> JournalStore
        ensures lists { (result.base ≡ base) × (result.tail.words ≡ tail) }
        ensures holds { journal_buckets result ≡ buckets_in base.items }
        ensures spans { journal_span result ≡ tail_span (length tail.items) }
        ensures empty { journal_log result ≡ [] }
    {
        JournalStore {
            base,
            tail: EntryList::new(tail),
        }
    }

    // Ends the store and hands its two lists back: the base as it is, the tail's writes not made in it.
    pub fn into_parts(self) -> (Vec<u32>, Vec<u32>)
        ensures { (result.0 ≡ self.base) × (result.1 ≡ self.tail.words) }
    {
        let JournalStore { base, tail } = self;
        let EntryList {
            words: tail,
            used: _,
        } = tail;
        (base, tail)
    }

    // Where bucket n begins in the base, unless its transfer is refused.
    fn admit(&self, n: BucketNumber) -> Result<usize, StoreFault>
        ensures { result ≡ answered (refusal 1 (journal_span self.now) (journal_log self.now) (journal_buckets self.now) n.0) (start_of n.0) }
    {
        self.tail.admit(&self.base, n)
    }

    // Copies bucket n, which begins at `start` in the base, into the caller's place: its latest write, else the base.
    fn look_up(&self, n: BucketNumber, start: usize, into: &mut [u32; BUCKET_WORDS])
        requires { (is_bucket (length (journal_buckets self.now)) n.0 ≡ true) × (start ≡ start_of n.0) }
        ensures place { into.new ≡ bucket_of (journal_buckets self.now) n.0 }
        ensures newest { into.new ≡ latest self.now.tail.used (journal_tail self.now) n.0 (bucket_of (buckets_in (journal_base self.now)) n.0) }
    {
        let entries = self.tail.entries();
        match latest_write(entries, n) {
            Some(k) => into.copy_from_slice(words_in(&entries[k])),
            None => copy_out(&self.base, start, into),
        }
    }

    // Adds the entry of a transfer at the tail's end.
    fn enter(&mut self, kind: EntryKind, n: BucketNumber, words: &[u32; BUCKET_WORDS])
        requires { self.old.tail.used < journal_span self.old }
        ensures enters { journal_log self.new ≡ entered (journal_log self.old) n.0 }
        ensures spans { journal_span self.new ≡ journal_span self.old }
        ensures base { journal_base self.new ≡ journal_base self.old }
        ensures tail { journal_tail self.new ≡ overwritten (journal_tail self.old) (entry_words * self.old.tail.used) (kind_word kind ∷ n.0 ∷ words.now) }
        ensures used { self.new.tail.used ≡ self.old.tail.used + 1 }
    {
        self.tail.push(&lay_out(kind, n, words));
    }
}

impl BucketStore for JournalStore {
    ghost buckets = { journal_buckets };

    ghost span = { journal_span };

    ghost log = { journal_log };

    ghost shape = { journal_shape };

    fn read(&mut self, n: BucketNumber, into: &mut [u32; BUCKET_WORDS]) -> Result<(), StoreFault>
        ensures answer { result ≡ done (refusal 1 (journal_span self.old) (journal_log self.old) (journal_buckets self.old) n.0) }
        ensures place { into.new ≡ (if is_ok result then bucket_of (journal_buckets self.old) n.0 else into.old) }
        ensures enters { journal_log self.new ≡ (if is_ok result then entered (journal_log self.old) n.0 else journal_log self.old) }
        ensures holds { journal_buckets self.new ≡ journal_buckets self.old }
        ensures spans { journal_span self.new ≡ journal_span self.old }
        ensures newest { into.new ≡ (if is_ok result then latest self.old.tail.used (journal_tail self.old) n.0 (bucket_of (buckets_in (journal_base self.old)) n.0) else into.old) }
        ensures base { journal_base self.new ≡ journal_base self.old }
        ensures tail { journal_tail self.new ≡ (if is_ok result then overwritten (journal_tail self.old) (entry_words * self.old.tail.used) (read_entry n.0) else journal_tail self.old) }
        ensures refused { is_ok result ≡ false → self.new ≡ self.old }
    {
        let start = self.admit(n)?;
        self.look_up(n, start, into);
        self.enter(EntryKind::Read, n, &[0; BUCKET_WORDS]);
        Ok(())
    }

    fn write(&mut self, n: BucketNumber, words: &[u32; BUCKET_WORDS]) -> Result<(), StoreFault>
        ensures answer { result ≡ done (refusal 1 (journal_span self.old) (journal_log self.old) (journal_buckets self.old) n.0) }
        ensures enters { journal_log self.new ≡ (if is_ok result then entered (journal_log self.old) n.0 else journal_log self.old) }
        ensures holds { journal_buckets self.new ≡ (if is_ok result then replaced (journal_buckets self.old) n.0 words.now else journal_buckets self.old) }
        ensures spans { journal_span self.new ≡ journal_span self.old }
        ensures base { journal_base self.new ≡ journal_base self.old }
        ensures tail { journal_tail self.new ≡ (if is_ok result then overwritten (journal_tail self.old) (entry_words * self.old.tail.used) (write_entry n.0 words.now) else journal_tail self.old) }
        ensures refused { is_ok result ≡ false → self.new ≡ self.old }
    {
        self.admit(n)?;
        self.enter(EntryKind::Write, n, words);
        Ok(())
    }

    fn bucket_count(&self) -> u32 {
        count_buckets(&self.base) as u32
    }

    fn log_span(&self) -> u32 {
        self.tail.span() as u32
    }

    fn log_used(&self) -> u32 {
        self.tail.used as u32
    }

    fn log_entry(&self, k: u32) -> Result<BucketNumber, StoreFault> {
        let entry = self.tail.entry(k)?;
        Ok(BucketNumber(entry[1]))
    }
}

impl StoreUpkeep for JournalStore {
    fn clear(&mut self)
        ensures holds { journal_buckets self.new ≡ zeroed (journal_buckets self.old) }
        ensures empties { journal_log self.new ≡ [] }
        ensures spans { journal_span self.new ≡ journal_span self.old }
        ensures base { journal_base self.new ≡ blanked (used_words (journal_base self.old)) (journal_base self.old) }
        ensures past { KeepsPast (journal_base self.old) (journal_base self.new) }
        ensures tail { journal_tail self.new ≡ journal_tail self.old }
    {
        blank(&mut self.base);
        self.tail.clear();
    }

    fn tear_off(&mut self)
        ensures holds { journal_buckets self.new ≡ journal_buckets self.old }
        ensures empties { journal_log self.new ≡ [] }
        ensures spans { journal_span self.new ≡ journal_span self.old }
        ensures base { journal_base self.new ≡ laid_out (journal_buckets self.old) ++ drop (used_words (journal_base self.old)) (journal_base self.old) }
        ensures past { KeepsPast (journal_base self.old) (journal_base self.new) }
        ensures tail { journal_tail self.new ≡ journal_tail self.old }
    {
        settle(&mut self.base, &self.tail);
        self.tail.clear();
    }
}
