// The laws of runs: what holds of every list of calls on an Oram of any record kind, any store and any map. Each function carries
// one law.
#![tactic(auto)]

ghost use Rattle.runs.specs.Secrecy.{CoinsAreRelabelled, DifferByEightOnly, LeavesOnlyMove, LogsAreEqual, LogsArePrescribed, RelabellingIsOneToOne, SmallNeverDiffers};

use posmap::interface::PositionMap;
use record::kind::RecordKind;
use store::interface::BucketStore;

// In every run, after each call, every row's log is the one prescribed by the turns so far.
pub fn logs_are_prescribed<K: RecordKind, S: BucketStore, P: PositionMap>()
    ensures { LogsArePrescribed K.RecordKind S.BucketStore P.PositionMap }
{}

// Two runs side by side that accept the same turns have equal logs after each call.
pub fn logs_are_equal<K: RecordKind, S: BucketStore, P: PositionMap>()
    ensures { LogsAreEqual K.RecordKind S.BucketStore P.PositionMap }
{}

// The relabelled coins are those of equal next showings, and no others.
pub fn coins_are_relabelled<K: RecordKind, S: BucketStore, P: PositionMap>()
    ensures { CoinsAreRelabelled K.RecordKind S.BucketStore P.PositionMap }
{}

// Relabelling moves new leaves within their row and nothing else.
pub fn leaves_only_move<K: RecordKind, S: BucketStore, P: PositionMap>()
    ensures { LeavesOnlyMove K.RecordKind S.BucketStore P.PositionMap }
{}

// Relabelling is one-to-one and onto.
pub fn relabelling_is_one_to_one<K: RecordKind, S: BucketStore, P: PositionMap>()
    ensures { RelabellingIsOneToOne K.RecordKind S.BucketStore P.PositionMap }
{}

// The first turn at which two matched runs accept differently is refused by 8.
pub fn runs_differ_by_eight_only<K: RecordKind, S: BucketStore, P: PositionMap>()
    ensures { DifferByEightOnly K.RecordKind S.BucketStore P.PositionMap }
{}

// Matched runs in small rows never differ.
pub fn small_runs_never_differ<K: RecordKind, S: BucketStore, P: PositionMap>()
    ensures { SmallNeverDiffers K.RecordKind S.BucketStore P.PositionMap }
{}
