// The pages of a level: which page has a number's leaf, and what a page holds.
ghost use Rattle.std.specs.Prelude.{◌≡◌, ◌/◌, Some};
ghost use Rattle.level.specs.Levels.{page_with, page_words};
ghost use Rattle.posmap.specs.Maps.{leaves_per_page};
ghost use Rattle.record.specs.Pages.{leaves_of};

use record::kind::RecordKind;
use record::page::{LEAVES_PER_PAGE, LeafPage};
use row::change::Change;
use tree::block::BLOCK_WORDS;
use tree::numbers::{Leaf, RecordNumber};

// The page that has the leaf of a number.
pub(crate) fn page_number(number: RecordNumber) -> RecordNumber
    ensures { result.0 ≡ number.0 / leaves_per_page }
{
    RecordNumber(number.0 / LEAVES_PER_PAGE)
}

// The page in the words that stood there. An absent one is eight zeros.
pub(crate) fn page_in(words: Option<[u32; BLOCK_WORDS]>) -> LeafPage
    ensures { leaves_of result ≡ page_words words }
{
    match words {
        Some(words) => LeafPage::from_words(words),
        None => LeafPage::zero(),
    }
}

// What a swap makes of a page: a number's leaf is replaced.
#[derive(Clone, Copy)]
pub(crate) struct NewLeaf {
    pub(crate) number: RecordNumber,
    pub(crate) leaf: Leaf,
}

impl Change for NewLeaf {
    ghost changed = { λ c words. Some (page_with (page_words words) c.number.0 c.leaf.0) };

    // A page arrives always, also where nothing of it changed: the log must not tell.
    fn change(self, found: Option<[u32; BLOCK_WORDS]>) -> Option<[u32; BLOCK_WORDS]> {
        let page = page_in(found).with_leaf(self.number, self.leaf);
        Some(page.to_words())
    }
}
