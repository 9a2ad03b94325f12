// Towards two lists of calls run side by side: calls as values, when two lists of them are alike, and what the host sees.
#![tactic(auto)]

pub mod calls;
mod seen;
