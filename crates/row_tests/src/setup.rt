// What the tests share.
use rig::given::blank_table;
use row::row::Row;
use std::alloc::{AllocError, Global};
use std::process::Abort;
use store::interface::BucketStore;
use store::table::TableStore;
use tree::numbers::BucketNumber;
use tree::queue::Queue;

// A row with an empty queue, over a table store of zeros.
pub(crate) fn blank_row(
    heap: Global,
    depth: u32,
    buckets: u16,
    span: usize,
) -> Result<Row<TableStore>, AllocError> {
    Ok(Row {
        store: blank_table(heap, buckets, span)?,
        queue: Queue::empty(),
        depth,
    })
}

// The first three words of a bucket: its place 0 by number plus 1, leaf and first word. Reading it enters it in the log.
pub(crate) fn first_place_is(rt: &impl Abort, store: &mut TableStore, n: u32, expected: [u32; 3]) {
    let mut words = [9; 40];
    assert!(rt; store.read(BucketNumber(n), &mut words).is_ok());
    assert_eq!(rt; [words[0], words[1], words[2]], expected);
}

// Whether the log holds just these numbers, oldest first.
pub(crate) fn log_is(store: &TableStore, expected: &[u32]) -> bool {
    store.log_used() as usize == expected.len()
        && (0..store.log_used()).zip(expected).all(|(k, number)| store.log_entry(k)
            == Ok(BucketNumber(*number)))
}
