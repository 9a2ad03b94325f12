// A whole flush along leaf 3 of a tree of depth 2, and where the blocks lie after it.
ghost use Rattle.bench.specs.Flushes.{PathFlushed};
ghost use Rattle.bench.specs.Placed.{LiesAfterFlush, block_at, blocks_in};
ghost use Rattle.steps.specs.Bench.{sample as sample_place};
ghost use Rattle.std.specs.Prelude.{◌≡◌, IfOk, string_bytes};
ghost use Rattle.tree.specs.Places.{block_in};

use itertools::Itertools;
use std::alloc::{AllocError, Global};
use std::fmt;
use tree::block::Block;
use tree::bucket::Bucket;
use tree::numbers::{Leaf, RecordNumber};

// The three buckets of a path of depth 2.
#[derive(Clone, Copy)]
pub struct PathOfThree {
    pub root: Bucket,
    pub middle: Bucket,
    pub last: Bucket,
}

// A block whose eight words are its number.
pub fn sample(number: u32, leaf: Leaf) -> Block
    ensures { result ≡ block_in (sample_place number leaf.0) }
{
    Block {
        number: RecordNumber(number),
        leaf,
        words: [number; 8],
    }
}

// The path's buckets after a flush: at most one block goes from the root to the middle, and then one to the last.
fn flush_path(mut path: PathOfThree, leaf: Leaf) -> PathOfThree
    ensures { PathFlushed leaf.0 path result }
{
    path.root.move_down(&mut path.middle, 2, leaf, 1);
    path.middle.move_down(&mut path.last, 2, leaf, 2);
    path
}

// Where a block lies, and its leaf.
#[derive(Clone, Copy)]
struct PlacedBlock {
    leaf: u32,
    bucket: u32,
    place: usize,
}

impl fmt::Display for PlacedBlock {
    ghost use Rattle.bench.specs.Placed.{placed_text};
    ghost use Rattle.std.specs.Prelude.{Some};

    ghost output = { λ placed. Some (placed_text placed) };

    fn fmt<W: fmt::Write>(&self, f: &mut fmt::Formatter<W>) -> fmt::Result {
        let PlacedBlock {
            leaf,
            bucket,
            place,
        } = *self;
        write!(f, "leaf {leaf} in bucket {bucket} place {place}")
    }
}

// The block of a bucket's place, where it has one.
fn block_at(number: u32, bucket: &Bucket, place: usize) -> Option<PlacedBlock>
    ensures { result ≡ block_at number bucket.now.places place }
{
    let block = bucket.place(place)?.block()?;
    Some(PlacedBlock {
        leaf: block.leaf.0,
        bucket: number,
        place,
    })
}

// The blocks of a bucket, place 0 first.
fn blocks_in(heap: Global, number: u32, bucket: &Bucket) -> Result<Vec<PlacedBlock>, AllocError>
    ensures { IfOk result (λ blocks. blocks.items ≡ blocks_in number bucket.now.places) }
{
    (0..4)
        .filter_map(|place| block_at(number, bucket, place))
        .collect(heap)
}

// Where the blocks lie after a flush along leaf 3 over a root and a middle bucket, the last being empty.
pub fn flushed(heap: Global, root: Bucket, middle: Bucket) -> Result<String, AllocError>
    ensures { IfOk result (λ text. LiesAfterFlush root middle (string_bytes text)) }
{
    let before = PathOfThree {
        root,
        middle,
        last: Bucket::empty(),
    };
    let after = flush_path(before, Leaf(3));
    let root = blocks_in(heap, 1, &after.root)?;
    let middle = blocks_in(heap, 3, &after.middle)?;
    let last = blocks_in(heap, 7, &after.last)?;
    root.into_iter().chain(middle).chain(last).join(heap, ", ")
}
