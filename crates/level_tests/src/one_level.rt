use crate::setup::small;
use posmap::interface::PositionMap;
use rig::answers::refusal;
use std::test::Fail;
use tree::numbers::{Leaf, RecordNumber};

#[test]
fn a_leaf_comes_back(rt: HostRuntime) -> Result<(), Fail> {
    let mut map = small(rt.alloc(), 48)?;
    assert_eq!(rt; map.len(), 16);
    let coins = [Leaf(1), Leaf(0), Leaf(1)];
    assert_eq!(rt; refusal(map.swap(RecordNumber(13), Leaf(7), &coins)), None);
    assert_eq!(rt; map.swap(RecordNumber(13), Leaf(9), &coins), Ok(Leaf(7)));
    assert_eq!(rt; map.swap(RecordNumber(12), Leaf(9), &coins), Ok(Leaf(0)));
    assert_eq!(rt; map.row_used(0), 48);
    assert_eq!(rt;
        refusal(map.swap(RecordNumber(12), Leaf(9), &coins)),
        Some((7, 0))
    );
    Ok(())
}

#[test]
fn edges_of_the_card(rt: HostRuntime) -> Result<(), Fail> {
    let map = small(rt.alloc(), 16)?;
    let coins = [Leaf(1), Leaf(0), Leaf(1)];
    let wide = [Leaf(1), Leaf(2), Leaf(1)];
    assert_eq!(rt;
        refusal(map.trial_swap(RecordNumber(15), Leaf(4095), &coins)),
        None
    );
    assert_eq!(rt;
        refusal(map.trial_swap(RecordNumber(16), Leaf(4096), &wide)),
        Some((2, 0))
    );
    assert_eq!(rt;
        refusal(map.trial_swap(RecordNumber(15), Leaf(4096), &wide[0..2])),
        Some((5, 0))
    );
    assert_eq!(rt;
        refusal(map.trial_swap(RecordNumber(15), Leaf(4096), &coins)),
        Some((6, 0))
    );
    assert_eq!(rt;
        refusal(map.trial_swap(RecordNumber(15), Leaf(0), &wide)),
        Some((6, 0))
    );
    assert_eq!(rt; refusal(map.trial_drain(&[Leaf(1)])), None);
    assert_eq!(rt; refusal(map.trial_drain(&[Leaf(2)])), Some((6, 0)));
    assert_eq!(rt; refusal(map.row_entry(0, 0)), Some((10, 0)));
    assert_eq!(rt; refusal(map.row_entry(3, 0)), Some((10, 3)));
    Ok(())
}
