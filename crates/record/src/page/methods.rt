// Reading and replacing the leaves of a page. Which page holds a number's leaf is the caller's matter:
// a page answers for every number, by its remainder.
ghost use Rattle.std.specs.Prelude.{◌≡◌, ◌%◌, replicate};
ghost use Rattle.record.specs.Pages.{Replaced, leaf_in, leaf_set, leaves_of, leaves_per_page, page_of};
ghost use Rattle.record.specs.Same.{same_page};
ghost use Rattle.record.specs.WordsLemmas.{words_from-all};
ghost use Rattle.std.proofs.Common.{rules, arith};

use crate::kind::{RECORD_WORDS, RecordKind};
use crate::page::{LEAVES_PER_PAGE, LeafPage};
use tree::numbers::{Leaf, RecordNumber};

// Where in its page a number's leaf stands.
fn slot(number: RecordNumber) -> usize
    ensures { result ≡ number.0 % leaves_per_page }
{
    (number.0 % LEAVES_PER_PAGE) as usize
}

impl LeafPage {
    pub fn zero() -> LeafPage
        ensures { leaves_of result ≡ replicate leaves_per_page 0 }
    {
        LeafPage {
            leaves: [0; RECORD_WORDS],
        }
    }

    pub fn leaf(&self, number: RecordNumber) -> Leaf
        ensures { result.0 ≡ leaf_in (leaves_of self.now) number.0 }
    {
        Leaf(self.leaves[slot(number)])
    }

    // The page with another leaf for this number. The other seven stay.
    pub fn with_leaf(self, number: RecordNumber, leaf: Leaf) -> LeafPage
        ensures leaves { leaves_of result ≡ leaf_set (leaves_of self) number.0 leaf.0 }
        ensures law { Replaced (leaves_of self) (leaves_of result) number.0 leaf.0 }
    {
        let mut leaves = self.leaves;
        leaves[slot(number)] = leaf.0;
        LeafPage { leaves }
    }
}

impl RecordKind for LeafPage {
    ghost laid = { leaves_of };

    ghost made = { page_of };

    ghost eight = { first_of (Prim.search rules, Prim.grind (arith, Self.row.coded.inj)) };

    ghost again = { λ x. same_page _ x (words_from-all 8 x.leaves x.eight) };

    fn to_words(&self) -> [u32; RECORD_WORDS]
        ensures { result ≡ leaves_of self.now }
    {
        self.leaves
    }

    fn from_words(words: [u32; RECORD_WORDS]) -> LeafPage
        ensures value { result ≡ page_of words }
        ensures whole { leaves_of result ≡ words }
    {
        LeafPage { leaves: words }
    }
}
