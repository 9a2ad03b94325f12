// Bucket stores: the faults of a store, what a store means, a store on a table of words, and a store on a journal.
#![tactic(auto)]

pub mod copy;
mod entry_list;
pub mod fault;
pub mod interface;
pub mod journal;
pub mod table;
mod tail;
mod words;
