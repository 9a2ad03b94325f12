ghost use Rattle.std.specs.Prelude.{Some, replicate};

use crate::setup::{blank_row, first_place_is, log_is};
use rig::given::block;
use row::change::Change;
use row::requests::Ask;
use std::test::Fail;
use store::interface::BucketStore;
use tree::numbers::{Leaf, RecordNumber};

// Eight equal words are put, whatever stood there.
#[derive(Clone, Copy)]
struct Put(u32);

impl Change for Put {
    ghost changed = { λ put found. Some (replicate 8 put.0) };

    fn change(self, _found: Option<[u32; 8]>) -> Option<[u32; 8]> {
        Some([self.0; 8])
    }
}

// Depth 1, shown leaf 0, flush leaves 0 and 1: a block of leaf 1 waits in the root and then goes to bucket 3.
#[test]
fn one_request_at_depth_one(rt: HostRuntime) -> Result<(), Fail> {
    let mut row = blank_row(rt.alloc(), 1, 3, 20)?;
    assert!(rt; row.fetch(RecordNumber(0), Leaf(0))?.is_none());
    row.arrive(block(0, 1, 5))?;
    row.dequeue(Leaf(0))?;
    row.dequeue(Leaf(1))?;
    assert_eq!(rt; row.queue.len(), 0);
    assert!(rt;
        log_is(
            &row.store,
            &[1, 1, 2, 2, 1, 1, 1, 2, 1, 2, 1, 1, 1, 3, 1, 3],
        )
    );
    first_place_is(&rt, &mut row.store, 1, [0, 0, 0]);
    first_place_is(&rt, &mut row.store, 2, [0, 0, 0]);
    first_place_is(&rt, &mut row.store, 3, [1, 1, 5]);
    Ok(())
}

// A request with shown leaf 0 and flush leaves 3 and 0; a look at bucket 7; a fetch along leaf 3.
const DOWN_AND_OUT: [u32; 29] = [
    1, 1, 2, 2, 4, 4, 1, 1, 1, 3, 1, 7, 3, 7, 1, 1, 1, 2, 1, 4, 2, 4, 7, 1, 1, 3, 3, 7, 7,
];

// Depth 2: a block of leaf 3 goes down to bucket 7 at once, and is found there along leaf 3.
#[test]
fn down_and_out_again_at_depth_two(rt: HostRuntime) -> Result<(), Fail> {
    let mut row = blank_row(rt.alloc(), 2, 7, 60)?;
    row.fetch(RecordNumber(6), Leaf(0))?;
    row.second_half(Some(block(6, 3, 8)), Leaf(3), Leaf(0))?;
    first_place_is(&rt, &mut row.store, 7, [7, 3, 8]);
    let found = row
        .fetch(RecordNumber(6), Leaf(3))?
        .ok_or("the block is not found")?;
    assert_eq!(rt; found.leaf.0, 3);
    assert!(rt; log_is(&row.store, &DOWN_AND_OUT));
    first_place_is(&rt, &mut row.store, 7, [0, 0, 0]);
    Ok(())
}

// The same work by one request. Leaf 7 is reduced to leaf 3.
#[test]
fn down_and_out_again_by_a_request(rt: HostRuntime) -> Result<(), Fail> {
    let mut row = blank_row(rt.alloc(), 2, 7, 60)?;
    let ask = Ask {
        number: RecordNumber(6),
        shown: Leaf(0),
        new: Leaf(3),
        first: Leaf(3),
        second: Leaf(0),
    };
    assert!(rt; row.request(ask, Put(8))?.is_none());
    first_place_is(&rt, &mut row.store, 7, [7, 3, 8]);
    let along = row.in_range(Leaf(7));
    let found = row
        .fetch(RecordNumber(6), along)?
        .ok_or("the block is not found")?;
    let word = found.words[0];
    assert_eq!(rt; word, 8);
    assert!(rt; log_is(&row.store, &DOWN_AND_OUT));
    Ok(())
}
