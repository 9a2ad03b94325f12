// A bucket store on two handed lists of words: one for the buckets, one for the log.
use crate::entry_list::EntryList;

mod methods;

#[derive(Drop)]
pub struct TableStore {
    // forty words for each bucket, bucket 1 first; those past the last bucket are never touched
    words: Vec<u32>,
    // a word for each transfer: the bucket's number
    log: EntryList<1>,
}
