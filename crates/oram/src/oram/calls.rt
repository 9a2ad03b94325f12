// The calls of an Oram. Each is thin over functions that are bounded by `BucketStore` and `PositionMap` alone: within these a log
// can only grow, so that what it gains is every transfer that was made.
ghost use Rattle.history.specs.Histories.{opening, getting, putting, draining};
ghost use Rattle.oram.specs.Calls.{Does, done, found};
ghost use Rattle.oram.specs.Worked.{Lawful};
ghost use Rattle.posmap.specs.Maps.{leaf_numbers};
ghost use Rattle.std.specs.Option.{option_map};
ghost use Rattle.std.specs.Prelude.{◌≡◌};

use crate::fault::OramFault;
use crate::oram::Oram;
use front::fitness::COINS_PER_DRAIN;
use posmap::interface::PositionMap;
use record::kind::RecordKind;
use store::interface::BucketStore;
use tree::block::BLOCK_WORDS;
use tree::numbers::{Leaf, RecordNumber};

// The record in the words that were found.
fn record_in<K: RecordKind>(words: Option<[u32; BLOCK_WORDS]>) -> Option<K>
    ensures { result ≡ option_map K.RecordKind.made words }
{
    Some(K::from_words(words?))
}

impl<K: RecordKind, S: BucketStore, P: PositionMap> Oram<K, S, P> {
    // A request for the next record not yet opened.
    pub fn open(&mut self, coins: &[Leaf]) -> Result<(), OramFault<P::Fault>>
        ensures does { Does K.RecordKind S.BucketStore P.PositionMap (leaf_numbers coins.now) self.old self.new opening (done P.Fault.CardFault result) }
        ensures law { Lawful K.RecordKind S.BucketStore P.PositionMap (leaf_numbers coins.now) self.old self.new opening (done P.Fault.CardFault result) }
    {
        self.fit()?;
        if self.opened >= self.front.below.len() {
            return Err(OramFault::AllOpened);
        }
        self.request(RecordNumber(self.opened), None, coins)?;
        self.opened += 1;
        Ok(())
    }

    // The record of a number, or none.
    pub fn get(
        &mut self,
        number: RecordNumber,
        coins: &[Leaf],
    ) -> Result<Option<K>, OramFault<P::Fault>>
        ensures does { Does K.RecordKind S.BucketStore P.PositionMap (leaf_numbers coins.now) self.old self.new (getting number.0) (found P.Fault.CardFault result) }
        ensures law { Lawful K.RecordKind S.BucketStore P.PositionMap (leaf_numbers coins.now) self.old self.new (getting number.0) (found P.Fault.CardFault result) }
    {
        self.in_time(number)?;
        let words = self.request(number, None, coins)?;
        Ok(record_in(words))
    }

    // Puts a record under a number, and answers what stood there, or none.
    pub fn put(
        &mut self,
        number: RecordNumber,
        record: &K,
        coins: &[Leaf],
    ) -> Result<Option<K>, OramFault<P::Fault>>
        ensures does { Does K.RecordKind S.BucketStore P.PositionMap (leaf_numbers coins.now) self.old self.new (putting number.0 «record».now) (found P.Fault.CardFault result) }
        ensures law { Lawful K.RecordKind S.BucketStore P.PositionMap (leaf_numbers coins.now) self.old self.new (putting number.0 «record».now) (found P.Fault.CardFault result) }
    {
        self.in_time(number)?;
        let words = self.request(number, Some(record.to_words()), coins)?;
        Ok(record_in(words))
    }

    // One dequeue in every row. A full queue does not refuse it.
    pub fn drain(&mut self, coins: &[Leaf]) -> Result<(), OramFault<P::Fault>>
        ensures does { Does K.RecordKind S.BucketStore P.PositionMap (leaf_numbers coins.now) self.old self.new draining (done P.Fault.CardFault result) }
        ensures law { Lawful K.RecordKind S.BucketStore P.PositionMap (leaf_numbers coins.now) self.old self.new draining (done P.Fault.CardFault result) }
    {
        self.fit()?;
        self.front.shares(coins, COINS_PER_DRAIN)?;
        self.front.drain(coins)?;
        Ok(())
    }
}
