// What all requests share. Everything is tested first, over all rows; then nothing can refuse.
ghost use Rattle.std.specs.Prelude.{◌≡◌, ◌<◌, None};
ghost use Rattle.std.specs.Option.{option_or};
ghost use Rattle.oram.specs.Calls.{ask_time};
ghost use Rattle.oram.specs.Orams.{records_of, unfit_of};
ghost use Rattle.oram.specs.Requests.{Asks, oram_card};
ghost use Rattle.posmap.specs.Maps.{leaf_numbers, naming, or_else};

use crate::fault::OramFault;
use crate::oram::Oram;
use front::fitness::COINS_PER_REQUEST;
use posmap::fault::LevelFault;
use posmap::interface::PositionMap;
use record::kind::RecordKind;
use row::change::Change;
use store::interface::BucketStore;
use tree::block::BLOCK_WORDS;
use tree::numbers::{Leaf, RecordNumber};

// The most records that an Oram may have.
const MOST_RECORDS: u32 = 65536;

// The words put under a record, if any. Without them those that stood there arrive again, and a record that is absent does not
// arrive.
#[derive(Clone, Copy)]
struct Put(Option<[u32; BLOCK_WORDS]>);

impl Change for Put {
    ghost changed = { λ put found. option_or put.0 found };

    fn change(self, found: Option<[u32; BLOCK_WORDS]>) -> Option<[u32; BLOCK_WORDS]> {
        self.0.or(found)
    }
}

impl<K: RecordKind, S: BucketStore, P: PositionMap> Oram<K, S, P> {
    // How an unfit Oram is refused: by 1, with the deepest unfit row.
    pub(crate) fn fit(&self) -> Result<(), OramFault<P::Fault>>
        ensures { oram_card P.Fault.CardFault result ≡ naming 1 (unfit_of S.BucketStore P.PositionMap self.now) }
    {
        Ok(self.front.fitness(MOST_RECORDS)?)
    }

    // How a get or a put is refused before its coins are looked at.
    pub(crate) fn in_time(&self, number: RecordNumber) -> Result<(), OramFault<P::Fault>>
        ensures { oram_card P.Fault.CardFault result ≡ or_else (naming 1 (unfit_of S.BucketStore P.PositionMap self.now)) (ask_time (records_of P.PositionMap self.now) self.now.opened number.0) }
    {
        self.fit()?;
        let records = self.front.below.len();
        if number.0 >= records {
            return Err(LevelFault::NoNumber.into());
        }
        if self.opened != records {
            return Err(OramFault::NotOpened);
        }
        Ok(())
    }

    // A request in time for a record, where these words are put, if any.
    pub(crate) fn request(
        &mut self,
        number: RecordNumber,
        put: Option<[u32; BLOCK_WORDS]>,
        coins: &[Leaf],
    ) -> Result<Option<[u32; BLOCK_WORDS]>, OramFault<P::Fault>>
        requires fit { unfit_of S.BucketStore P.PositionMap self.old ≡ None }
        requires number { number.0 < records_of P.PositionMap self.old }
        ensures { Asks K.RecordKind S.BucketStore P.PositionMap P.Fault.CardFault (leaf_numbers coins.now) self.old self.new number.0 put result }
    {
        self.front.shares(coins, COINS_PER_REQUEST)?;
        Ok(self.front.request(number, coins, Put(put))?)
    }
}
