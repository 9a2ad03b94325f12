// The steps of a row over any bucket store.
#![tactic(auto)]

mod buckets;
pub mod change;
pub mod fault;
pub mod fetching;
pub mod flushing;
pub mod halves;
pub mod moves;
pub mod queueing;
pub mod requests;
pub mod row;
pub mod trial;
