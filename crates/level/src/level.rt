// A level over any store and any map below.
use front::front::Front;

mod pages;
mod positions;
mod upkeep;

// Its pages are blocks of a row, eight leaves each; the map below has a leaf for every page.
#[derive(Drop)]
pub struct Level<S, P> {
    front: Front<S, P>,
}
