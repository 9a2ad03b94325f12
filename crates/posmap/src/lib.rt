// Position maps: what a map of leaves means, the flat map, and levels.
#![tactic(auto)]

pub mod fault;
pub mod flat;
pub mod interface;
pub mod tried;
