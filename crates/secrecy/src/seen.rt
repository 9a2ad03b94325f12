// What the host sees: the logs of all rows, copied out of an Oram.
ghost use Rattle.std.specs.Prelude.{◌≡◌, ◌<◌, ◌≤◌, ◌++◌, length, IfOk, OnOk};
ghost use Rattle.oram.specs.Orams.{rows_of};
ghost use Rattle.posmap.specs.Maps.{row_at};
ghost use Rattle.runs.specs.Pairs.{logs_of};
ghost use Rattle.secrecy.specs.Seen.{flat, flat_log};

use oram::oram::Oram;
use posmap::interface::PositionMap;
use record::kind::RecordKind;
use std::alloc::{AllocError, Global};
use store::interface::BucketStore;

// One row's log behind its length.
fn add_log<K: RecordKind, S: BucketStore, P: PositionMap>(
    out: &mut Vec<u32>,
    oram: &Oram<K, S, P>,
    row: u8,
) -> Result<(), AllocError>
    ensures { OnOk result (out.new.items ≡ out.old.items ++ flat_log (row_at (rows_of S.BucketStore P.PositionMap oram.now) row).log) }
{
    let used = oram.row_used(row);
    out.push(used)?;
    for k in 0..used {
        let entry = oram.row_entry(row, k).unwrap();
        out.push(entry.0)?;
    }
    Ok(())
}

// The logs of all rows, one behind the other. An Oram that can be fit has at most 255 rows.
pub(crate) fn seen<K: RecordKind, S: BucketStore, P: PositionMap>(
    heap: Global,
    oram: &Oram<K, S, P>,
) -> Result<Vec<u32>, AllocError>
    requires { length (rows_of S.BucketStore P.PositionMap oram.now) ≤ 255 }
    ensures { IfOk result (λ v. v.items ≡ flat (logs_of S.BucketStore P.PositionMap oram.now)) }
{
    let mut out = Vec::new(heap);
    for row in 0..oram.row_count() {
        add_log(&mut out, oram, row)?;
    }
    Ok(out)
}
