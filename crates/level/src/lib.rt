// A level: a position map that is itself a row over another map.
#![tactic(auto)]

pub mod level;
