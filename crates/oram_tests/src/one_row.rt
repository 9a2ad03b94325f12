// Two records in one row of depth 1: bucket 2 is leaf 0, bucket 3 leaf 1.
use oram::oram::Oram;
use posmap::flat::FlatMap;
use record::calibration::CalibrationRecord;
use rig::answers::refusal;
use rig::given::blank_table;
use std::alloc::{AllocError, Global};
use std::process::Abort;
use std::test::Fail;
use store::interface::BucketStore;
use store::table::TableStore;
use tree::numbers::{BucketNumber, Leaf, RecordNumber};

type Region = Oram<CalibrationRecord, TableStore, FlatMap>;

fn region(heap: Global, depth: u32, span: usize) -> Result<Region, AllocError> {
    Ok(Oram::begin(blank_table(heap, 3, span)?, FlatMap::new(2), depth))
}

fn cab(tag: u64) -> CalibrationRecord {
    CalibrationRecord {
        tag,
        coefficient: 40_000,
        constant: 39_000,
        circumference: 15_000,
        bay: 7,
        odometer: 123_456,
        day: 20_000,
    }
}

// Both records opened, record 0 with new leaf 1, record 1 with new leaf 0.
fn opened(rt: &(impl Abort + AllocGlobal), span: usize) -> Result<Region, Fail> {
    let mut oram = region(rt.alloc(), 1, span)?;
    assert_eq!(rt; refusal(oram.open(&[Leaf(1), Leaf(0), Leaf(1)])), None);
    assert_eq!(rt; refusal(oram.open(&[Leaf(0), Leaf(1), Leaf(1)])), None);
    Ok(oram)
}

// Whether the log of row 0 holds just these numbers, oldest first.
fn log_is(oram: &Region, expected: &[u32]) -> bool {
    oram.row_used(0) as usize == expected.len()
        && (0..oram.row_used(0)).zip(expected).all(|(k, number)| oram.row_entry(0, k)
            == Ok(BucketNumber(*number)))
}

#[test]
fn a_record_comes_back(rt: HostRuntime) -> Result<(), Fail> {
    let mut oram = opened(&rt, 112)?;
    let coins = [Leaf(0), Leaf(0), Leaf(0)];
    assert_eq!(rt; oram.put(RecordNumber(0), &cab(5), &coins), Ok(None));
    assert_eq!(rt;
        oram.put(RecordNumber(0), &cab(6), &coins),
        Ok(Some(cab(5)))
    );
    assert_eq!(rt; oram.get(RecordNumber(1), &coins), Ok(None));
    assert_eq!(rt; refusal(oram.drain(&[Leaf(1)])), None);
    assert_eq!(rt; oram.get(RecordNumber(0), &coins), Ok(Some(cab(6))));
    assert_eq!(rt; oram.row_used(0), 102);
    Ok(())
}

#[test]
fn the_log_of_a_day(rt: HostRuntime) -> Result<(), Fail> {
    let mut oram = opened(&rt, 70)?;
    // record 0 shows 1, the new leaf of its open, and then 0
    let coins = [Leaf(0), Leaf(0), Leaf(1)];
    assert_eq!(rt; refusal(oram.get(RecordNumber(0), &coins)), None);
    assert_eq!(rt; refusal(oram.put(RecordNumber(0), &cab(5), &coins)), None);
    assert_eq!(rt; refusal(oram.drain(&[Leaf(1)])), None);
    assert!(rt; log_is(
        &oram,
        &[
            1, 1, 2, 2, 1, 1, 1, 2, 1, 2, 1, 1, 1, 3, 1, 3, //
            1, 1, 2, 2, 1, 1, 1, 3, 1, 3, 1, 1, 1, 3, 1, 3, //
            1, 1, 3, 3, 1, 1, 1, 2, 1, 2, 1, 1, 1, 3, 1, 3, //
            1, 1, 2, 2, 1, 1, 1, 2, 1, 2, 1, 1, 1, 3, 1, 3, //
            1, 1, 1, 3, 1, 3,
        ],
    ));
    let (store, _map) = oram.into_parts();
    assert_eq!(rt; store.log_used(), 70);
    Ok(())
}

#[test]
fn edges_of_the_card(rt: HostRuntime) -> Result<(), Fail> {
    let coins = [Leaf(1), Leaf(0), Leaf(1)];
    let mut deep = region(rt.alloc(), 13, 16)?;
    assert_eq!(rt; refusal(deep.open(&coins)), Some((1, 0)));
    let mut oram = region(rt.alloc(), 1, 31)?;
    assert_eq!(rt; refusal(oram.get(RecordNumber(1), &coins)), Some((3, 0)));
    assert_eq!(rt; refusal(oram.get(RecordNumber(2), &coins)), Some((2, 0)));
    assert_eq!(rt; refusal(oram.open(&coins[0..2])), Some((5, 0)));
    assert_eq!(rt;
        refusal(oram.open(&[Leaf(1), Leaf(0), Leaf(2)])),
        Some((6, 0))
    );
    assert_eq!(rt; refusal(oram.open(&coins)), None);
    // 15 entries are free, and an open makes 16
    assert_eq!(rt; refusal(oram.open(&coins)), Some((7, 0)));
    assert_eq!(rt; oram.row_used(0), 16);
    assert_eq!(rt; refusal(oram.row_entry(0, 16)), Some((10, 0)));
    assert_eq!(rt; refusal(oram.row_entry(3, 0)), Some((10, 3)));
    Ok(())
}

#[test]
fn questions(rt: HostRuntime) -> Result<(), Fail> {
    let mut oram = opened(&rt, 80)?;
    assert_eq!(rt;
        refusal(oram.open(&[Leaf(1), Leaf(0), Leaf(1)])),
        Some((4, 0))
    );
    assert_eq!(rt; oram.len(), 2);
    assert_eq!(rt; oram.row_count(), 1);
    assert_eq!(rt; oram.row_depth(0), 1);
    assert_eq!(rt; oram.row_depth(1), 0);
    assert_eq!(rt; oram.row_span(0), 80);
    assert_eq!(rt; oram.row_span(1), 0);
    assert_eq!(rt; oram.row_used(1), 0);
    Ok(())
}
