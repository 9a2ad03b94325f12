// What tests begin with.
ghost use Rattle.rig.specs.Given.{IsBlank};
ghost use Rattle.std.specs.Prelude.{◌≡◌, IfOk, replicate};

use std::alloc::{AllocError, Global};
use store::table::TableStore;
use tree::block::Block;
use tree::numbers::{Leaf, RecordNumber};

// A table store of so many buckets of zeros, with an empty log of that span.
pub fn blank_table(heap: Global, buckets: u16, span: usize) -> Result<TableStore, AllocError>
    ensures { IfOk result (IsBlank buckets span) }
{
    let words = vec![in heap; 0u32; usize::from(buckets) * 40]?;
    let log = vec![in heap; 0u32; span]?;
    Ok(TableStore::new(words, log))
}

// A block whose eight words are all the same.
pub fn block(number: u32, leaf: u32, word: u32) -> Block
    ensures number { result.number.0 ≡ number }
    ensures leaf { result.leaf.0 ≡ leaf }
    ensures words { result.words ≡ replicate 8 word }
{
    Block {
        number: RecordNumber(number),
        leaf: Leaf(leaf),
        words: [word; 8],
    }
}
