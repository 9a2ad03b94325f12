// A whole request: both halves, with the same entries whatever stands in the row.
ghost use Rattle.row.specs.Requests.{ArrivesAs, Requested, request_refusal_of, shown_leaf, words_found};
ghost use Rattle.row.specs.Rows.{Frame, log_in};
ghost use Rattle.std.specs.Prelude.{◌≡◌, true, [], ◌∷◌, ◌++◌, is_ok, is_err, IfOk, if◌then◌else◌};
ghost use Rattle.std.specs.Result.{result_err};
ghost use Rattle.tree.specs.Entries.{request_entries};

use crate::change::Change;
use crate::fault::RowFault;
use crate::row::Row;
use crate::trial::trial;
use store::interface::BucketStore;
use tree::block::{BLOCK_WORDS, Block};
use tree::numbers::{Leaf, RecordNumber};

// What a row is asked: the number, the leaf that a map shows for it, its new leaf, and the two leaves to dequeue along.
#[derive(Clone, Copy)]
pub struct Ask {
    pub number: RecordNumber,
    pub shown: Leaf,
    pub new: Leaf,
    pub first: Leaf,
    pub second: Leaf,
}

// The words of the block that was found.
fn words_in(found: Option<Block>) -> Option<[u32; BLOCK_WORDS]>
    ensures { result ≡ words_found found }
{
    Some(found?.words)
}

// The block that arrives with these words. Without words nothing does.
fn arrival(number: RecordNumber, leaf: Leaf, words: Option<[u32; BLOCK_WORDS]>) -> Option<Block>
    ensures { ArrivesAs number.0 leaf.0 words result }
{
    let words = words?;
    Some(Block {
        number,
        leaf,
        words,
    })
}

impl<S: BucketStore> Row<S> {
    // The block of the number is fetched along the shown leaf, what arrives is made from what stood there, and two dequeues
    // follow. All is tested first, the queue's room also where nothing arrives: whether something does is known only once the
    // work has begun.
    pub fn request<C: Change + Drop>(
        &mut self,
        ask: Ask,
        change: C,
    ) -> Result<Option<[u32; BLOCK_WORDS]>, RowFault>
        ensures answer { result_err result ≡ request_refusal_of S.BucketStore self.old ask }
        ensures does { IfOk result (λ words. Requested S.BucketStore self.old self.new ask (C.Change.changed change) words) }
        ensures log { log_in S.BucketStore self.new ≡ (if is_ok result then log_in S.BucketStore self.old ++ request_entries self.old.depth (shown_leaf self.old ask) (ask.first.0 ∷ ask.second.0 ∷ []) else log_in S.BucketStore self.old) }
        ensures frame { Frame S.BucketStore self.old self.new }
        ensures refused { is_err result ≡ true → self.new ≡ self.old }
    {
        let entries = self.request_moves();
        trial(
            &self.store,
            self.depth,
            &[ask.new, ask.first, ask.second],
            entries,
            !self.queue.is_full(),
        )?;
        let along = self.in_range(ask.shown);
        let found = self.fetch(ask.number, along).unwrap();
        let words = words_in(found);
        let arrives = arrival(ask.number, ask.new, change.change(words));
        self.second_half(arrives, ask.first, ask.second).unwrap();
        Ok(words)
    }
}
