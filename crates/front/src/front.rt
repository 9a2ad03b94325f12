// A row in front of a map.
use row::row::Row;

// The map has a leaf for each number that the row can be asked. Every row and map are a front: `fitness` tells whether the two can
// work together.
#[derive(Drop)]
pub struct Front<S, P> {
    pub row: Row<S>,
    pub below: P,
}
