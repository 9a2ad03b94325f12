// The oblivious RAM: records under their numbers, over any record kind, any bucket store and any position map.
#![tactic(auto)]

pub mod fault;
pub mod oram;
