// Eight records in a row of depth 3, over a level of depth 1 that holds their leaves on one page.
use level::level::Level;
use oram::oram::Oram;
use posmap::flat::FlatMap;
use record::calibration::CalibrationRecord;
use rig::answers::refusal;
use rig::given::blank_table;
use std::alloc::{AllocError, Global};
use std::test::Fail;
use store::table::TableStore;
use tree::numbers::{BucketNumber, Leaf, RecordNumber};

type Region = Oram<CalibrationRecord, TableStore, Level<TableStore, FlatMap>>;

fn region(heap: Global) -> Result<Region, AllocError> {
    let map = Level::begin(blank_table(heap, 3, 160)?, FlatMap::new(1), 1);
    Ok(Oram::begin(blank_table(heap, 15, 280)?, map, 3))
}

const CAB: CalibrationRecord = CalibrationRecord {
    tag: 9,
    coefficient: 8_000,
    constant: 8_010,
    circumference: 24_960,
    bay: 214,
    odometer: 0,
    day: 789,
};

#[test]
fn leaves_on_a_page(rt: HostRuntime) -> Result<(), Fail> {
    let mut oram = region(rt.alloc())?;
    assert_eq!(rt; oram.len(), 8);
    assert_eq!(rt; oram.row_count(), 2);
    let coins = [Leaf(6), Leaf(0), Leaf(7), Leaf(1), Leaf(0), Leaf(1)];
    let wide = [Leaf(6), Leaf(0), Leaf(7), Leaf(1), Leaf(2), Leaf(1)];
    assert_eq!(rt; refusal(oram.open(&wide)), Some((6, 1)));
    for _ in 0..8 {
        assert_eq!(rt; refusal(oram.open(&coins)), None);
    }
    assert_eq!(rt; refusal(oram.put(RecordNumber(7), &CAB, &coins)), None);
    assert_eq!(rt; oram.get(RecordNumber(7), &coins), Ok(Some(CAB)));
    // row 1 shows 0 for its page at the first open, and ever after 1, the new leaf of the request before
    for (k, bucket) in [(2, 2), (18, 3), (146, 3)] {
        assert_eq!(rt; oram.row_entry(1, k), Ok(BucketNumber(bucket)));
    }
    // row 0 shows 0 for a record at its open, and then 6: the path to leaf 6 is 1, 3, 7, 14
    for (k, bucket) in [(6, 8), (230, 14), (258, 14)] {
        assert_eq!(rt; oram.row_entry(0, k), Ok(BucketNumber(bucket)));
    }
    // both logs are full
    assert_eq!(rt; refusal(oram.drain(&[Leaf(0), Leaf(0)])), Some((7, 0)));
    Ok(())
}
