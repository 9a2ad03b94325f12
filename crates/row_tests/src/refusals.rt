use crate::setup::{blank_row, log_is};
use rig::answers::refusal;
use rig::given::block;
use std::test::Fail;
use store::interface::BucketStore;
use tree::numbers::{Leaf, RecordNumber};

#[test]
fn smallest_number_first(rt: HostRuntime) -> Result<(), Fail> {
    let mut row = blank_row(rt.alloc(), 0, 3, 5)?;
    // depth 0, and too few buckets for depth 2
    assert_eq!(rt; refusal(row.dequeue(Leaf(9))), Some((1, 0)));
    row.depth = 2;
    assert_eq!(rt; refusal(row.dequeue(Leaf(9))), Some((1, 0)));
    // leaf 2 at depth 1, and a dequeue that enters 6 where 5 are free
    row.depth = 1;
    assert_eq!(rt; refusal(row.dequeue(Leaf(2))), Some((6, 0)));
    assert_eq!(rt; refusal(row.dequeue(Leaf(1))), Some((7, 0)));
    assert_eq!(rt; row.store.log_used(), 0);
    // a flush enters 4, and then a fetch finds 1 free
    row.flush(Leaf(1))?;
    assert!(rt; row.fetch(RecordNumber(0), Leaf(0)).is_err());
    assert!(rt; log_is(&row.store, &[1, 3, 1, 3]));
    Ok(())
}

#[test]
fn a_full_queue_takes_no_more(rt: HostRuntime) -> Result<(), Fail> {
    let mut row = blank_row(rt.alloc(), 1, 3, 0)?;
    for number in 0..32 {
        row.arrive(block(number, 0, 0))?;
    }
    assert_eq!(rt; row.queue.len(), 32);
    assert_eq!(rt; refusal(row.arrive(block(32, 0, 0))), Some((8, 0)));
    assert_eq!(rt; refusal(row.arrive(block(32, 2, 0))), Some((6, 0)));
    Ok(())
}
