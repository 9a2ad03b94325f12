// A request made step by step by one who has the store by reference alone: depth 1, shown leaf 0, flush leaves 0 and 1.
use crate::setup::{first_place_is, log_is};
use rig::answers::refusal;
use rig::given::{blank_table, block};
use row::fault::RowFault;
use row::fetching::fetch;
use row::flushing::{dequeue, flush};
use row::halves::{in_range, second_half};
use row::queueing::{arrive, put_back};
use std::test::Fail;
use store::table::TableStore;
use tree::numbers::{Leaf, RecordNumber};
use tree::queue::Queue;

fn request_on(store: &mut TableStore, queue: Queue) -> Result<Queue, RowFault> {
    let got = fetch(store, queue, 1, RecordNumber(0), in_range(Leaf(2), 1))?;
    let longer = arrive(store, got.queue, 1, block(0, 1, 5))?;
    let once = put_back(store, longer, 1)?;
    flush(store, 1, Leaf(0))?;
    dequeue(store, once, 1, Leaf(1))
}

#[test]
fn step_by_step_on_a_lent_store(rt: HostRuntime) -> Result<(), Fail> {
    let mut store = blank_table(rt.alloc(), 3, 20)?;
    let left = request_on(&mut store, Queue::empty())?;
    assert_eq!(rt; left.len(), 0);
    assert!(rt; log_is(&store, &[1, 1, 2, 2, 1, 1, 1, 2, 1, 2, 1, 1, 1, 3, 1, 3]));
    // four entries are free, and a second half makes twelve
    let refused = second_half(&mut store, left, 1, None, Leaf(0), Leaf(1));
    assert_eq!(rt; refusal(refused), Some((7, 0)));
    first_place_is(&rt, &mut store, 3, [1, 1, 5]);
    Ok(())
}
