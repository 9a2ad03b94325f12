// How many entries a request and a drain leave in the access log.
ghost use Rattle.std.specs.Prelude.{◌≡◌, ◌^◌, ◌<◌, true, if◌then◌else◌, Some, None, MatchOption};
ghost use Rattle.tree.specs.Entries.{EntryCounts, moves_of, total, all_depths};
ghost use Rattle.tree.specs.Paths.{is_depth};

use crate::bucket::BUCKET_WORDS;
use crate::paths::is_depth;

// Bytes that one move of a bucket transfers, four for each word.
pub const BUCKET_BYTES: u32 = 4 * BUCKET_WORDS as u32;

// What a row is asked to do: a request fetches and dequeues twice, a drain dequeues once.
#[derive(Clone, Copy, PartialEq, Eq, Debug)]
pub enum Work {
    Request,
    Drain,
}

// How many buckets this work moves in a row of this depth.
#[tactic(auto, using(crate::proofs::Counts::entry_counts))]
pub fn moves(work: Work, depth: u32) -> Option<u32>
    ensures value { result ≡ (if is_depth depth then Some (moves_of work depth) else None) }
    ensures counts { EntryCounts }
{
    if !is_depth(depth) {
        return None;
    }
    match work {
        Work::Request => Some(6 * depth + 10),
        Work::Drain => Some(2 * depth + 4),
    }
}

// How many buckets this work moves in all rows of a region, given their depths; none if one is no depth or the sum does not fit.
pub fn region_moves(work: Work, depths: &[u32]) -> Option<u32>
    ensures { MatchOption result (all_depths depths.now ≡ true → total (moves_of work) depths.now < 2 ^ 32 → ⊥) (λ n. (all_depths depths.now ≡ true) × (n ≡ total (moves_of work) depths.now)) }
{
    let mut sum = 0u32;
    for depth in depths {
        let more = moves(work, *depth)?;
        sum = sum.checked_add(more)?;
    }
    Some(sum)
}
