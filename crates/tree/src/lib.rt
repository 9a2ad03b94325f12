// The tree of buckets: its numbers and paths, the entries that each step leaves in the access log, blocks, buckets and the queue.
#![tactic(auto)]

pub mod block;
pub mod bucket;
pub mod entries;
pub mod numbers;
pub mod path;
pub mod paths;
pub mod place;
pub mod prescribed;
pub mod queue;
