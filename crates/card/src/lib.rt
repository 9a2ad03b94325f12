// The card of refusals: for what cause a call is refused, and in which row.
#![tactic(auto)]

pub mod cause;
pub mod fault;
