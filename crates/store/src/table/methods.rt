// The calls of a table store.
ghost use Rattle.std.specs.Prelude.{◌≡◌, ◌<◌, false, [], length, drop, is_ok, if◌then◌else◌, slice_set};
ghost use Rattle.store.specs.Layout.{KeepsPast, blanked, buckets_in, overwritten, span_of, start_of, used_words};
ghost use Rattle.store.specs.Stores.{answered, bucket_of, done, entered, refusal, replaced, zeroed};
ghost use Rattle.store.specs.Tables.{table_buckets, table_entries, table_log, table_shape, table_span, table_words};

use crate::entry_list::EntryList;
use crate::fault::StoreFault;
use crate::interface::{BucketStore, StoreUpkeep};
use crate::table::TableStore;
use crate::words::{blank, copy_in, copy_out, count_buckets};
use tree::bucket::BUCKET_WORDS;
use tree::numbers::BucketNumber;

impl TableStore {
    // A store on these lists, just as they are, with an empty log.
    pub fn new(words: Vec<u32>, log: Vec<u32>) -> TableStore
        ensures lists { (result.words ≡ words) × (result.log.words ≡ log) }
        ensures holds { table_buckets result ≡ buckets_in words.items }
        ensures spans { table_span result ≡ span_of (length log.items) }
        ensures empty { table_log result ≡ [] }
    {
        TableStore {
            words,
            log: EntryList::new(log),
        }
    }

    // Ends the store and hands its two lists back.
    pub fn into_parts(self) -> (Vec<u32>, Vec<u32>)
        ensures { (result.0 ≡ self.words) × (result.1 ≡ self.log.words) }
    {
        let TableStore { words, log } = self;
        let EntryList {
            words: entries,
            used: _,
        } = log;
        (words, entries)
    }

    // Where bucket n begins, unless its transfer is refused.
    fn admit(&self, n: BucketNumber) -> Result<usize, StoreFault>
        ensures { result ≡ answered (refusal 1 (table_span self.now) (table_log self.now) (table_buckets self.now) n.0) (start_of n.0) }
    {
        self.log.admit(&self.words, n)
    }

    // Enters n at the log's end.
    fn enter(&mut self, n: BucketNumber)
        requires { self.old.log.used < table_span self.old }
        ensures enters { table_log self.new ≡ entered (table_log self.old) n.0 }
        ensures spans { table_span self.new ≡ table_span self.old }
        ensures words { table_words self.new ≡ table_words self.old }
        ensures entries { table_entries self.new ≡ slice_set (table_entries self.old) self.old.log.used n.0 }
    {
        self.log.push(&[n.0]);
    }
}

impl BucketStore for TableStore {
    ghost buckets = { table_buckets };

    ghost span = { table_span };

    ghost log = { table_log };

    ghost shape = { table_shape };

    fn read(&mut self, n: BucketNumber, into: &mut [u32; BUCKET_WORDS]) -> Result<(), StoreFault>
        ensures answer { result ≡ done (refusal 1 (table_span self.old) (table_log self.old) (table_buckets self.old) n.0) }
        ensures place { into.new ≡ (if is_ok result then bucket_of (table_buckets self.old) n.0 else into.old) }
        ensures enters { table_log self.new ≡ (if is_ok result then entered (table_log self.old) n.0 else table_log self.old) }
        ensures holds { table_buckets self.new ≡ table_buckets self.old }
        ensures spans { table_span self.new ≡ table_span self.old }
        ensures words { table_words self.new ≡ table_words self.old }
        ensures entries { table_entries self.new ≡ (if is_ok result then slice_set (table_entries self.old) self.old.log.used n.0 else table_entries self.old) }
        ensures refused { is_ok result ≡ false → self.new ≡ self.old }
    {
        let at = self.admit(n)?;
        copy_out(&self.words, at, into);
        self.enter(n);
        Ok(())
    }

    fn write(&mut self, n: BucketNumber, words: &[u32; BUCKET_WORDS]) -> Result<(), StoreFault>
        ensures answer { result ≡ done (refusal 1 (table_span self.old) (table_log self.old) (table_buckets self.old) n.0) }
        ensures enters { table_log self.new ≡ (if is_ok result then entered (table_log self.old) n.0 else table_log self.old) }
        ensures holds { table_buckets self.new ≡ (if is_ok result then replaced (table_buckets self.old) n.0 words.now else table_buckets self.old) }
        ensures spans { table_span self.new ≡ table_span self.old }
        ensures words { table_words self.new ≡ (if is_ok result then overwritten (table_words self.old) (start_of n.0) words.now else table_words self.old) }
        ensures past { KeepsPast (table_words self.old) (table_words self.new) }
        ensures entries { table_entries self.new ≡ (if is_ok result then slice_set (table_entries self.old) self.old.log.used n.0 else table_entries self.old) }
        ensures refused { is_ok result ≡ false → self.new ≡ self.old }
    {
        let at = self.admit(n)?;
        copy_in(&mut self.words, at, words);
        self.enter(n);
        Ok(())
    }

    fn bucket_count(&self) -> u32 {
        count_buckets(&self.words) as u32
    }

    fn log_span(&self) -> u32 {
        self.log.span() as u32
    }

    fn log_used(&self) -> u32 {
        self.log.used as u32
    }

    fn log_entry(&self, k: u32) -> Result<BucketNumber, StoreFault> {
        let entry = self.log.entry(k)?;
        Ok(BucketNumber(entry[0]))
    }
}

impl StoreUpkeep for TableStore {
    fn clear(&mut self)
        ensures holds { table_buckets self.new ≡ zeroed (table_buckets self.old) }
        ensures empties { table_log self.new ≡ [] }
        ensures spans { table_span self.new ≡ table_span self.old }
        ensures words { table_words self.new ≡ blanked (used_words (table_words self.old)) (table_words self.old) }
        ensures past { KeepsPast (table_words self.old) (table_words self.new) }
        ensures entries { table_entries self.new ≡ table_entries self.old }
    {
        blank(&mut self.words);
        self.tear_off();
    }

    fn tear_off(&mut self)
        ensures holds { table_buckets self.new ≡ table_buckets self.old }
        ensures empties { table_log self.new ≡ [] }
        ensures spans { table_span self.new ≡ table_span self.old }
        ensures words { table_words self.new ≡ table_words self.old }
        ensures entries { table_entries self.new ≡ table_entries self.old }
    {
        self.log.clear();
    }
}
