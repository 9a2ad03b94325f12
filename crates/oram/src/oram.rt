// An Oram over any record kind, any store and any map below.
use front::front::Front;
use std::marker::PhantomData;

mod asking;
mod calls;
mod questions;
mod upkeep;

// Its records are blocks of row 0, which stands in the store; the map below has a leaf for every record, and its rows follow from
// 1. Nothing but the calls changes the fields, and `begin` is the only way to make one.
#[derive(Drop)]
pub struct Oram<K, S, P> {
    front: Front<S, P>,
    // How many records were opened.
    opened: u32,
    kind: PhantomData<K>,
}
