// A bucket store on a base, which has the buckets as they were, and a tail, to which each transfer adds an entry.
use crate::entry_list::EntryList;
use crate::tail::ENTRY_WORDS;

mod methods;

#[derive(Drop)]
pub struct JournalStore {
    // forty words for each bucket, bucket 1 first; those past the last bucket are never touched
    base: Vec<u32>,
    // forty-two words for each transfer
    tail: EntryList<ENTRY_WORDS>,
}
