use tree::numbers::{BucketNumber, Leaf};
use tree::paths::{bucket_at, layer_of, shared};

#[test]
fn leaf_two_of_depth_two(rt: HostRuntime) {
    assert_eq!(rt; bucket_at(2, Leaf(2), 0), Some(BucketNumber(1)));
    assert_eq!(rt; bucket_at(2, Leaf(2), 1), Some(BucketNumber(3)));
    assert_eq!(rt; bucket_at(2, Leaf(2), 2), Some(BucketNumber(6)));
    assert_eq!(rt; bucket_at(2, Leaf(2), 3), None);
}

#[test]
fn no_such_path(rt: HostRuntime) {
    assert_eq!(rt; bucket_at(0, Leaf(0), 0), None);
    assert_eq!(rt; bucket_at(13, Leaf(0), 0), None);
    assert_eq!(rt; bucket_at(12, Leaf(4095), 12), Some(BucketNumber(8191)));
    assert_eq!(rt; bucket_at(12, Leaf(4096), 12), None);
}

#[test]
fn shared_buckets(rt: HostRuntime) {
    assert_eq!(rt; shared(2, Leaf(2), Leaf(3)), Some(2));
    assert_eq!(rt; shared(2, Leaf(0), Leaf(3)), Some(1));
    assert_eq!(rt; shared(2, Leaf(1), Leaf(1)), Some(3));
    assert_eq!(rt; layer_of(BucketNumber(6)), Some(2));
    assert_eq!(rt; layer_of(BucketNumber(0)), None);
}
