use crate::calibration::CalibrationRecord;
use crate::kind::{RecordKind, round_trip};
use crate::page::LeafPage;
use tree::numbers::{Leaf, RecordNumber};

#[test]
fn calibration_word_by_word(rt: HostRuntime) {
    let cab = CalibrationRecord {
        tag: 0x0123_4567_89ab_cdef,
        coefficient: 40_000,
        constant: 39_000,
        circumference: 15_000,
        bay: 7,
        odometer: 123_456,
        day: 20_000,
    };
    let words = [
        0x89ab_cdef,
        0x0123_4567,
        2_555_944_000,
        473_752,
        123_456,
        20_000,
        0,
        0,
    ];
    assert_eq!(rt; cab.to_words(), words);
    assert_eq!(rt; CalibrationRecord::from_words(words), cab);
    assert_eq!(rt; round_trip(&cab), cab);
}

#[test]
fn last_two_words_are_ignored(rt: HostRuntime) {
    let full = u32::MAX;
    let made = CalibrationRecord::from_words([full, full, full, full, full, full, 1, full]);
    let widest = CalibrationRecord {
        tag: u64::MAX,
        coefficient: u16::MAX,
        constant: u16::MAX,
        circumference: u16::MAX,
        bay: u16::MAX,
        odometer: full,
        day: full,
    };
    assert_eq!(rt; made, widest);
    assert_eq!(rt; made.to_words(), [full, full, full, full, full, full, 0, 0]);
}

#[test]
fn page_edited(rt: HostRuntime) {
    let page = LeafPage::zero()
        .with_leaf(RecordNumber(3), Leaf(5))
        .with_leaf(RecordNumber(8), Leaf(6))
        .with_leaf(RecordNumber(u32::MAX), Leaf(7));
    assert_eq!(rt; page.to_words(), [6, 0, 0, 5, 0, 0, 0, 7]);
    assert_eq!(rt; page.leaf(RecordNumber(11)), Leaf(5));
    let same = LeafPage::from_words([6, 0, 0, 5, 0, 0, 0, 7]);
    assert_eq!(rt; same.leaf(RecordNumber(16)), Leaf(6));
    assert_eq!(rt; round_trip(&same), page);
}
