// A leaf page: eight leaves of a row's numbers, one a word.
ghost use Rattle.std.specs.Prelude.{◌≡◌, length};

use crate::kind::RECORD_WORDS;

mod methods;

// How many leaves a page has.
pub const LEAVES_PER_PAGE: u32 = RECORD_WORDS as u32;

#[derive(Clone, Copy, PartialEq, Eq, Debug)]
pub struct LeafPage {
    leaves: [u32; RECORD_WORDS],
    ghost eight: { length leaves ≡ 8 },
}
