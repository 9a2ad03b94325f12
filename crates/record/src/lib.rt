// Kinds of record: how each is laid out in eight words, and made from any eight words.
#![tactic(auto)]

pub mod calibration;
pub mod kind;
pub mod page;
#[cfg(test)]
mod tests;
