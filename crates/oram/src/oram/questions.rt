// The questions of an Oram: those of its row 0 in front of the map. None changes anything.
ghost use Rattle.std.specs.Prelude.{◌≡◌, ◌<◌, min, length, IfOk, slice_index};
ghost use Rattle.history.specs.Histories.{History, deeds, moves_since};
ghost use Rattle.oram.specs.Orams.{records_of, rows_of};
ghost use Rattle.oram.specs.Requests.{oram_card};
ghost use Rattle.oram.specs.Worked.{Worked};
ghost use Rattle.posmap.specs.Maps.{entry_refusal, row_at};

use crate::fault::OramFault;
use crate::oram::Oram;
use posmap::interface::PositionMap;
use record::kind::RecordKind;
use store::interface::BucketStore;
use tree::numbers::BucketNumber;

impl<K: RecordKind, S: BucketStore, P: PositionMap> Oram<K, S, P> {
    // How many records there are.
    pub fn len(&self) -> u32
        ensures { result ≡ records_of P.PositionMap self.now }
    {
        self.front.below.len()
    }

    // How many rows there are; the count stops at 255.
    pub fn row_count(&self) -> u8
        ensures { result ≡ min 255 (length (rows_of S.BucketStore P.PositionMap self.now)) }
    {
        self.front.row_count()
    }

    // A row's depth, span and entries used: 0 of a missing row.
    pub fn row_depth(&self, row: u8) -> u32
        ensures { result ≡ (row_at (rows_of S.BucketStore P.PositionMap self.now) row).depth }
    {
        self.front.row_depth(row)
    }

    pub fn row_span(&self, row: u8) -> u32
        ensures { result ≡ (row_at (rows_of S.BucketStore P.PositionMap self.now) row).span }
    {
        self.front.row_span(row)
    }

    // Its contract says too that the entries since the last tear-off follow from calls, accepted turns and depths alone.
    pub fn row_used(&self, row: u8) -> u32
        ensures value { result ≡ length (row_at (rows_of S.BucketStore P.PositionMap self.now) row).log }
        ensures counted { (h : History K) → Worked K.RecordKind S.BucketStore P.PositionMap h self.now → row < length (rows_of S.BucketStore P.PositionMap self.now) → result ≡ moves_since (row_at (rows_of S.BucketStore P.PositionMap self.now) row).depth (deeds h) }
    {
        self.front.row_used(row)
    }

    // Entry k of a row's log, counted from 0, the oldest.
    pub fn row_entry(&self, row: u8, k: u32) -> Result<BucketNumber, OramFault<P::Fault>>
        ensures card { oram_card P.Fault.CardFault result ≡ entry_refusal (rows_of S.BucketStore P.PositionMap self.now) row k }
        ensures value { IfOk result (λ b. b.0 ≡ slice_index (row_at (rows_of S.BucketStore P.PositionMap self.now) row).log k) }
    {
        Ok(self.front.row_entry(row, k)?)
    }
}
