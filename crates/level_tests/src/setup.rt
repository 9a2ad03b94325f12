// What the tests share.
use level::level::Level;
use posmap::flat::FlatMap;
use rig::given::blank_table;
use std::alloc::{AllocError, Global};
use store::table::TableStore;

// A level of depth 1 on a table store, over a flat map of two leaves: two pages, 16 leaves.
pub(crate) fn small(heap: Global, span: usize) -> Result<Level<TableStore, FlatMap>, AllocError> {
    Ok(Level::begin(blank_table(heap, 3, span)?, FlatMap::new(2), 1))
}
