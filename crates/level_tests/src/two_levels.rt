use crate::setup::small;
use level::level::Level;
use posmap::interface::PositionMap;
use rig::answers::refusal;
use std::test::Fail;
use store::journal::JournalStore;
use tree::numbers::{Leaf, RecordNumber};

// A level on a journal store over a level on a table store over a flat map: 128 leaves in two rows.
#[test]
fn stores_mixed(rt: HostRuntime) -> Result<(), Fail> {
    let heap = rt.alloc();
    let base = vec![in heap; 0u32; 120]?;
    let tail = vec![in heap; 0u32; 42 * 40]?;
    let mut map = Level::begin(JournalStore::new(base, tail), small(heap, 16)?, 1);
    assert_eq!(rt; map.len(), 128);
    assert_eq!(rt; map.row_count(), 2);
    let coins = [Leaf(1), Leaf(0), Leaf(1), Leaf(0), Leaf(1), Leaf(1)];
    let wide = [Leaf(1), Leaf(0), Leaf(1), Leaf(0), Leaf(1), Leaf(2)];
    assert_eq!(rt;
        refusal(map.trial_swap(RecordNumber(128), Leaf(5), &wide)),
        Some((2, 0))
    );
    assert_eq!(rt;
        refusal(map.trial_swap(RecordNumber(127), Leaf(5), &wide)),
        Some((6, 1))
    );
    assert_eq!(rt;
        refusal(map.trial_swap(RecordNumber(127), Leaf(5), &wide[0..5])),
        Some((5, 0))
    );
    assert_eq!(rt; refusal(map.swap(RecordNumber(127), Leaf(5), &coins)), None);
    assert_eq!(rt; map.row_used(0), 16);
    assert_eq!(rt; map.row_used(1), 16);
    // the table store below has no free entry left
    assert_eq!(rt;
        refusal(map.swap(RecordNumber(127), Leaf(6), &coins)),
        Some((7, 1))
    );
    assert_eq!(rt; map.row_used(0), 16);
    Ok(())
}
