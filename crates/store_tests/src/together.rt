// The same calls to both stores: equal answers, places and logs after each, and equal buckets in the end.
use crate::calls::{Call, play};
use std::test::Fail;
use store::journal::JournalStore;
use store::table::TableStore;

const CALLS: [Call; 20] = [
    Call::Read(1),
    Call::Write(2, 22),
    Call::Write(2, 33),
    Call::Read(2),
    Call::Rewrite(2),
    Call::Read(3),
    Call::Write(1, 11),
    Call::TearOff,
    Call::Read(1),
    Call::Read(2),
    Call::Write(0, 44),
    Call::Rewrite(1),
    Call::Rewrite(3),
    Call::Write(2, 55),
    Call::Clear,
    Call::Read(2),
    Call::Write(1, 66),
    Call::Rewrite(1),
    Call::Read(1),
    Call::TearOff,
];

#[test]
fn alike(rt: HostRuntime) -> Result<(), Fail> {
    let heap = rt.alloc();
    let mut table = TableStore::new(vec![in heap; 9; 100]?, vec![in heap; 0; 5]?);
    let mut journal = JournalStore::new(vec![in heap; 9; 100]?, vec![in heap; 0; 217]?);
    for call in CALLS {
        assert_eq!(rt;
            play(heap, &mut table, call)?,
            play(heap, &mut journal, call)?
        );
    }
    let (words, _log) = table.into_parts();
    let (base, _tail) = journal.into_parts();
    assert!(rt;
        words.as_slice() == base.as_slice(),
        "torn off, the base is the table"
    );
    assert_eq!(rt; words.get(0).copied(), Some(66));
    assert_eq!(rt;
        words.get(80).copied(),
        Some(9),
        "past the last bucket nothing is touched"
    );
    Ok(())
}
