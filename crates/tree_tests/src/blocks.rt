use rig::given::block;
use std::test::Fail;
use tree::bucket::Bucket;
use tree::numbers::RecordNumber;
use tree::queue::Queue;

#[test]
fn words_of_a_bucket(rt: HostRuntime) {
    let mut bucket = Bucket::empty();
    assert!(rt; bucket.put_in(block(6, 3, 6)).is_ok());
    let words = bucket.to_words();
    assert_eq!(rt; words[0], 7);
    assert_eq!(rt; words[1], 3);
    assert_eq!(rt; words[9], 6);
    assert_eq!(rt; words[10], 0);
    assert_eq!(rt;
        Bucket::from_words(&words).place_of(RecordNumber(6)),
        Some(0)
    );
}

#[test]
fn a_full_bucket_hands_back(rt: HostRuntime) {
    let mut bucket = Bucket::empty();
    for number in 0..4 {
        assert!(rt; bucket.put_in(block(number, 0, number)).is_ok());
    }
    assert!(rt; bucket.put_in(block(9, 0, 9)).is_err());
    assert!(rt; bucket.take_out(RecordNumber(2)).is_some());
    assert_eq!(rt; bucket.lowest_empty(), Some(2));
    assert!(rt; bucket.put_in(block(u32::MAX, 0, u32::MAX)).is_err());
    assert!(rt; bucket.take_out(RecordNumber(2)).is_none());
}

#[test]
fn a_place_that_is_neither(rt: HostRuntime) {
    let mut words = [0; 40];
    words[5] = 1;
    let bucket = Bucket::from_words(&words);
    assert_eq!(rt; bucket.lowest_empty(), Some(1));
    assert_eq!(rt; bucket.place_of(RecordNumber(0)), None);
}

#[test]
fn a_number_waits_once(rt: HostRuntime) -> Result<(), Fail> {
    let queue = Queue::empty()
        .arrive(block(5, 1, 5))
        .ok()
        .ok_or("the first block is refused")?;
    assert!(rt; queue.arrive(block(5, 2, 5)).is_err());
    let (rest, taken) = queue.take_out(RecordNumber(5));
    assert!(rt; taken.is_some());
    assert_eq!(rt; rest.len(), 0);
    Ok(())
}
