// A request of a row and the map below it, and a drain. Bounded by `BucketStore` and `PositionMap` alone: within them a log can only
// grow.
ghost use Rattle.front.specs.Fronts.{drain_refused, front_card, request_refused};
ghost use Rattle.front.specs.Requests.{Asked, Drained};
ghost use Rattle.posmap.specs.Maps.{leaf_numbers};
ghost use Rattle.std.specs.Prelude.{◌≡◌, true, is_err, IfOk, OnOk};

use crate::front::Front;
use posmap::fault::LevelFault;
use posmap::interface::PositionMap;
use row::change::Change;
use row::requests::Ask;
use store::interface::BucketStore;
use tree::block::BLOCK_WORDS;
use tree::numbers::{Leaf, RecordNumber};

impl<S: BucketStore, P: PositionMap> Front<S, P> {
    // The map swaps the number's leaf for the new one, with the coins that the row leaves, and the row works along the leaf that
    // the map shows. All is tested first, and the map is asked before the row, so that a refusal leaves both as they were.
    pub fn request<C: Change + Drop>(
        &mut self,
        number: RecordNumber,
        coins: &[Leaf],
        change: C,
    ) -> Result<Option<[u32; BLOCK_WORDS]>, LevelFault<P::Fault>>
        ensures card { front_card P.Fault.CardFault result ≡ request_refused S.BucketStore P.PositionMap self.old number.0 (leaf_numbers coins.now) }
        ensures does { IfOk result (λ words. Asked S.BucketStore P.PositionMap self.old self.new number.0 (leaf_numbers coins.now) (C.Change.changed change) words) }
        ensures refused { is_err result ≡ true → self.new ≡ self.old }
    {
        if !self.row.is_fit() {
            return Err(LevelFault::Unfit);
        }
        self.trial_request(number, coins)?;
        let [new, first, second, rest @ ..] = coins else {
            return Err(LevelFault::WrongCoins);
        };
        let shown = self.below.swap(number, *new, rest)?;
        let ask = Ask {
            number,
            shown,
            new: *new,
            first: *first,
            second: *second,
        };
        let found = self.row.request(ask, change).unwrap();
        Ok(found)
    }

    // One dequeue in the row, and a drain of the map.
    pub fn drain(&mut self, coins: &[Leaf]) -> Result<(), LevelFault<P::Fault>>
        ensures card { front_card P.Fault.CardFault result ≡ drain_refused S.BucketStore P.PositionMap self.old (leaf_numbers coins.now) }
        ensures does { OnOk result (Drained S.BucketStore P.PositionMap self.old self.new (leaf_numbers coins.now)) }
        ensures refused { is_err result ≡ true → self.new ≡ self.old }
    {
        if !self.row.is_fit() {
            return Err(LevelFault::Unfit);
        }
        self.trial_drain(coins)?;
        let [along, rest @ ..] = coins else {
            return Err(LevelFault::WrongCoins);
        };
        self.below.drain(rest)?;
        self.row.dequeue(*along).unwrap();
        Ok(())
    }
}
