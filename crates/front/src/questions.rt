// The questions about a row and the map below it: the row is row 0, and each row of the map is one deeper. None changes anything.
ghost use Rattle.std.specs.Prelude.{◌≡◌, min, length, IfOk, slice_index};
ghost use Rattle.front.specs.Fronts.{front_card, rows_of};
ghost use Rattle.posmap.specs.Faults.{last_row};
ghost use Rattle.posmap.specs.Maps.{entry_refusal, row_at};

use crate::front::Front;
use posmap::fault::LevelFault;
use posmap::interface::PositionMap;
use store::interface::BucketStore;
use tree::numbers::BucketNumber;

impl<S: BucketStore, P: PositionMap> Front<S, P> {
    // How many rows there are; the count stops at 255.
    pub fn row_count(&self) -> u8
        ensures { result ≡ min last_row (length (rows_of S.BucketStore P.PositionMap self.now)) }
    {
        self.below.row_count().saturating_add(1)
    }

    // A row's depth, span and entries used: 0 of a missing row.
    pub fn row_depth(&self, row: u8) -> u32
        ensures { result ≡ (row_at (rows_of S.BucketStore P.PositionMap self.now) row).depth }
    {
        match row.checked_sub(1) {
            None => self.row.depth,
            Some(lower) => self.below.row_depth(lower),
        }
    }

    pub fn row_span(&self, row: u8) -> u32
        ensures { result ≡ (row_at (rows_of S.BucketStore P.PositionMap self.now) row).span }
    {
        match row.checked_sub(1) {
            None => self.row.store.log_span(),
            Some(lower) => self.below.row_span(lower),
        }
    }

    pub fn row_used(&self, row: u8) -> u32
        ensures { result ≡ length (row_at (rows_of S.BucketStore P.PositionMap self.now) row).log }
    {
        match row.checked_sub(1) {
            None => self.row.store.log_used(),
            Some(lower) => self.below.row_used(lower),
        }
    }

    // Entry k of a row's log, counted from 0, the oldest.
    pub fn row_entry(&self, row: u8, k: u32) -> Result<BucketNumber, LevelFault<P::Fault>>
        ensures card { front_card P.Fault.CardFault result ≡ entry_refusal (rows_of S.BucketStore P.PositionMap self.now) row k }
        ensures value { IfOk result (λ b. b.0 ≡ slice_index (row_at (rows_of S.BucketStore P.PositionMap self.now) row).log k) }
    {
        match row.checked_sub(1) {
            None => self
                .row
                .store
                .log_entry(k)
                .map_err(|_| LevelFault::NoEntry(0)),
            Some(lower) => Ok(self.below.row_entry(lower, k)?),
        }
    }
}
