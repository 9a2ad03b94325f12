// Bucket numbers as a line of text, parted by commas.
ghost use Rattle.bench.specs.Entries.{listed};
ghost use Rattle.std.specs.Iterator.Runs.{WholeRun};
ghost use Rattle.std.specs.Iterator.{IsFinite};
ghost use Rattle.std.specs.Prelude.{◌≡◌, IfOk, string_bytes};

use itertools::Itertools;
use std::alloc::{AllocError, Global};
use tree::numbers::BucketNumber;

// The most entries of a request, at depth 12.
pub const MOST: u32 = 82;

// The numbers of these buckets.
pub(crate) fn line<I: Iterator<Item = BucketNumber> + Drop>(
    heap: Global,
    buckets: I,
) -> Result<String, AllocError>
    requires can { I.can_next buckets }
    requires finite { IsFinite (I.remaining buckets) }
    ensures { IfOk result (λ text. WholeRun I.next_gives buckets (λ p. string_bytes text ≡ listed p.items)) }
{
    buckets.map(|bucket| bucket.0).join(heap, ", ")
}
