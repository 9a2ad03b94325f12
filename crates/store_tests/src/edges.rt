// The edges: counts of buckets and entries, the last bucket and the one past it, a full log.
use rig::answers::refusal;
use std::process::Abort;
use std::test::Fail;
use store::interface::BucketStore;
use store::journal::JournalStore;
use store::table::TableStore;
use tree::numbers::BucketNumber;

#[test]
fn buckets_of_a_list(rt: HostRuntime) -> Result<(), Fail> {
    for (words, buckets) in [(39, 0), (40, 1), (41, 1), (327_640, 8191), (327_680, 8191)] {
        let table = TableStore::new(vec![in rt.alloc(); 0; words]?, vec![in rt.alloc()]?);
        assert_eq!(rt; table.bucket_count(), buckets);
        let journal = JournalStore::new(vec![in rt.alloc(); 0; words]?, vec![in rt.alloc()]?);
        assert_eq!(rt; journal.bucket_count(), buckets);
    }
    Ok(())
}

#[test]
fn span_of_a_log(rt: HostRuntime) -> Result<(), Fail> {
    for (words, span) in [(0, 0), (1, 1), (65_536, 65_536), (65_537, 65_536)] {
        let table = TableStore::new(vec![in rt.alloc()]?, vec![in rt.alloc(); 0; words]?);
        assert_eq!(rt; table.log_span(), span);
    }
    for (words, span) in [
        (41, 0),
        (42, 1),
        (43, 1),
        (2_752_512, 65_536),
        (2_752_554, 65_536),
    ] {
        let journal = JournalStore::new(vec![in rt.alloc()]?, vec![in rt.alloc(); 0; words]?);
        assert_eq!(rt; journal.log_span(), span);
    }
    Ok(())
}

// A store of two buckets whose log can hold two entries.
fn two_of_each<S: BucketStore>(rt: &impl Abort, store: &mut S) {
    let mut place = [0u32; 40];
    assert_eq!(rt;
        refusal(store.read(BucketNumber(0), &mut place)),
        Some((9, 0))
    );
    assert_eq!(rt; refusal(store.write(BucketNumber(3), &place)), Some((9, 0)));
    assert_eq!(rt; store.log_used(), 0);
    assert_eq!(rt; refusal(store.read(BucketNumber(2), &mut place)), None);
    assert_eq!(rt; refusal(store.write(BucketNumber(1), &place)), None);
    assert_eq!(rt;
        refusal(store.read(BucketNumber(1), &mut place)),
        Some((7, 0))
    );
    assert_eq!(rt;
        refusal(store.write(BucketNumber(3), &place)),
        Some((7, 0)),
        "7 comes before 9"
    );
    assert_eq!(rt; store.log_entry(1), Ok(BucketNumber(1)));
    assert_eq!(rt;
        refusal(store.log_entry(2)),
        Some((10, 0)),
        "there is no third entry"
    );
}

#[test]
fn full_table(rt: HostRuntime) -> Result<(), Fail> {
    two_of_each(
        &rt,
        &mut TableStore::new(vec![in rt.alloc(); 0; 119]?, vec![in rt.alloc(); 0; 2]?),
    );
    Ok(())
}

#[test]
fn full_journal(rt: HostRuntime) -> Result<(), Fail> {
    two_of_each(
        &rt,
        &mut JournalStore::new(vec![in rt.alloc(); 0; 119]?, vec![in rt.alloc(); 0; 125]?),
    );
    Ok(())
}

// With no room in the log every transfer is refused by 7, of a bucket that is there and of one that is not.
#[test]
fn no_room(rt: HostRuntime) -> Result<(), Fail> {
    let mut table = TableStore::new(vec![in rt.alloc(); 0; 40]?, vec![in rt.alloc()]?);
    let mut journal = JournalStore::new(vec![in rt.alloc(); 0; 40]?, vec![in rt.alloc(); 0; 41]?);
    for n in [0, 1, 2] {
        assert_eq!(rt;
            refusal(table.write(BucketNumber(n), &[1; 40])),
            Some((7, 0))
        );
        assert_eq!(rt;
            refusal(journal.write(BucketNumber(n), &[1; 40])),
            Some((7, 0))
        );
    }
    Ok(())
}

// The last bucket that a store may have, and the one past it.
#[test]
fn last_bucket(rt: HostRuntime) -> Result<(), Fail> {
    let mut table = TableStore::new(vec![in rt.alloc(); 0; 327_680]?, vec![in rt.alloc(); 0; 9]?);
    assert_eq!(rt; refusal(table.write(BucketNumber(8191), &[5; 40])), None);
    assert_eq!(rt;
        refusal(table.write(BucketNumber(8192), &[6; 40])),
        Some((9, 0))
    );
    let (words, _log) = table.into_parts();
    assert_eq!(rt; words.get(327_639).copied(), Some(5));
    assert_eq!(rt; words.get(327_640).copied(), Some(0));
    Ok(())
}
