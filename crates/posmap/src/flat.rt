// The flat map: the leaves of up to 128 numbers in a table, with no row beneath.
ghost use Rattle.std.specs.Prelude.{◌≡◌, ◌≤◌, length};

mod methods;

// The longest that a flat map can be.
pub const LONGEST: u32 = 128;

// Only the first `len` leaves are the map's; what stands after them in the table is never read. A table and not a `Vec`, since a map
// is fixed memory: nothing allocates.
#[derive(Drop)]
pub struct FlatMap {
    table: [u32; LONGEST as usize],
    len: u32,
    ghost long: { length table ≡ 128 },
    ghost some: { 1 ≤ len },
    ghost few: { len ≤ 128 },
}
