// Three sorts of number. No call takes one for another, and only a `Path` turns a leaf into a bucket number.

// The number of a record, or of a page, within its row.
#[derive(Clone, Copy, PartialEq, Eq, Debug)]
pub struct RecordNumber(pub u32);

// A leaf of a row's tree, counted from 0.
#[derive(Clone, Copy, PartialEq, Eq, Debug)]
pub struct Leaf(pub u32);

// A bucket of a row's tree, counted from 1, the root.
#[derive(Clone, Copy, PartialEq, Eq, Debug)]
pub struct BucketNumber(pub u32);
