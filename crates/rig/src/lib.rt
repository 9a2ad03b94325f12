// What tests of the crates share: stores and blocks to begin with, refusals by number and row, and logs.
#![tactic(auto)]

pub mod answers;
pub mod given;
