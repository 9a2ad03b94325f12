// A row in front of a map: what a level and an Oram share. The row finds its blocks by the leaves of the map, and the rows of the
// map follow its own.
#![tactic(auto)]

pub mod fitness;
pub mod front;
pub mod questions;
pub mod requests;
pub mod trial;
pub mod upkeep;
