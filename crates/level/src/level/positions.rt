// A level as a position map.
ghost use Rattle.front.specs.Fronts.{front_card, request_refusal_from};
ghost use Rattle.level.specs.Facts.{level_facts};
ghost use Rattle.level.specs.Meaning.{Drained, Frame, LeafSwapped, Ordered, RowsDrained, Swapped, Unchanged, drain_refused, full_of, leaves_of, rows_of, swap_refused, unfit_of};
ghost use Rattle.posmap.specs.Maps.{leaf_numbers, leaves_per_page, naming};
ghost use Rattle.std.specs.Prelude.{◌≡◌, ◌/◌, true, is_err, IfOk, None, OnOk};

use crate::level::Level;
use crate::level::pages::{NewLeaf, page_in, page_number};
use front::fitness::{COINS_PER_DRAIN, COINS_PER_REQUEST};
use posmap::fault::LevelFault;
use posmap::interface::{PositionMap, WIDEST_LEAF};
use record::page::LEAVES_PER_PAGE;
use store::interface::BucketStore;
use tree::numbers::{BucketNumber, Leaf, RecordNumber};

// The most pages that a level may have.
const MOST_PAGES: u32 = 8192;

impl<S: BucketStore, P: PositionMap> Level<S, P> {
    // How an unfit level is refused: by 1, with the deepest unfit row.
    fn fit(&self) -> Result<(), LevelFault<P::Fault>>
        ensures { front_card P.Fault.CardFault result ≡ naming 1 (unfit_of S.BucketStore P.PositionMap self.now) }
    {
        self.front.fitness(MOST_PAGES)
    }

    // How a swap is refused before the coins are looked at one by one. What is left is how row and map refuse a request for the
    // number's page.
    fn admits(
        &self,
        number: RecordNumber,
        leaf: Leaf,
        coins: &[Leaf],
    ) -> Result<(), LevelFault<P::Fault>>
        ensures refused { is_err result ≡ true → front_card P.Fault.CardFault result ≡ swap_refused S.BucketStore P.PositionMap self.now number.0 leaf.0 (leaf_numbers coins.now) }
        ensures fit { OnOk result (unfit_of S.BucketStore P.PositionMap self.now ≡ None) }
        ensures rest { OnOk result (request_refusal_from S.BucketStore P.PositionMap self.now.front (number.0 / leaves_per_page) (leaf_numbers coins.now) ≡ swap_refused S.BucketStore P.PositionMap self.now number.0 leaf.0 (leaf_numbers coins.now)) }
    {
        self.fit()?;
        if page_number(number).0 >= self.front.below.len() {
            return Err(LevelFault::NoNumber);
        }
        self.front.shares(coins, COINS_PER_REQUEST)?;
        if leaf.0 > WIDEST_LEAF {
            return Err(LevelFault::NoLeaf);
        }
        Ok(())
    }
}

impl<S: BucketStore, P: PositionMap> PositionMap for Level<S, P> {
    type Fault = LevelFault<P::Fault>;

    ghost ordered = { Ordered S.BucketStore P.PositionMap };

    ghost leaves = { leaves_of S.BucketStore P.PositionMap };

    ghost rows = { rows_of S.BucketStore P.PositionMap };

    ghost unfit = { unfit_of S.BucketStore P.PositionMap };

    ghost full = { full_of P.PositionMap };

    ghost swapped = { Swapped S.BucketStore P.PositionMap };

    ghost drained = { Drained S.BucketStore P.PositionMap };

    ghost facts = { level_facts S.BucketStore P.PositionMap };

    fn trial_swap(
        &self,
        number: RecordNumber,
        leaf: Leaf,
        coins: &[Leaf],
    ) -> Result<(), LevelFault<P::Fault>> {
        self.admits(number, leaf, coins)?;
        self.front.trial_request(page_number(number), coins)
    }

    // A refused swap leaves the level as it was, value for value: all is tested before anything moves.
    fn swap(
        &mut self,
        number: RecordNumber,
        leaf: Leaf,
        coins: &[Leaf],
    ) -> Result<Leaf, LevelFault<P::Fault>>
        ensures card { front_card P.Fault.CardFault result ≡ swap_refused S.BucketStore P.PositionMap self.old number.0 leaf.0 (leaf_numbers coins.now) }
        ensures frame { Frame S.BucketStore P.PositionMap self.old self.new }
        ensures order { Ordered S.BucketStore P.PositionMap self.old → Ordered S.BucketStore P.PositionMap self.new }
        ensures refused { is_err result ≡ true → Unchanged S.BucketStore P.PositionMap self.old self.new }
        ensures done { Ordered S.BucketStore P.PositionMap self.old → IfOk result (λ m. LeafSwapped S.BucketStore P.PositionMap self.old self.new number.0 leaf.0 (leaf_numbers coins.now) m.0) }
        ensures does { OnOk result (Swapped S.BucketStore P.PositionMap self.old number.0 leaf.0 (leaf_numbers coins.now) self.new) }
        ensures same { is_err result ≡ true → self.new ≡ self.old }
    {
        self.admits(number, leaf, coins)?;
        let page = page_number(number);
        let found = self.front.request(page, coins, NewLeaf { number, leaf })?;
        Ok(page_in(found).leaf(number))
    }

    fn trial_drain(&self, coins: &[Leaf]) -> Result<(), LevelFault<P::Fault>> {
        self.fit()?;
        self.front.shares(coins, COINS_PER_DRAIN)?;
        self.front.trial_drain(coins)
    }

    // And so does a refused drain.
    fn drain(&mut self, coins: &[Leaf]) -> Result<(), LevelFault<P::Fault>>
        ensures card { front_card P.Fault.CardFault result ≡ drain_refused S.BucketStore P.PositionMap self.old (leaf_numbers coins.now) }
        ensures frame { Frame S.BucketStore P.PositionMap self.old self.new }
        ensures order { Ordered S.BucketStore P.PositionMap self.old → Ordered S.BucketStore P.PositionMap self.new }
        ensures refused { is_err result ≡ true → Unchanged S.BucketStore P.PositionMap self.old self.new }
        ensures done { Ordered S.BucketStore P.PositionMap self.old → OnOk result (RowsDrained S.BucketStore P.PositionMap self.old self.new (leaf_numbers coins.now)) }
        ensures does { OnOk result (Drained S.BucketStore P.PositionMap self.old (leaf_numbers coins.now) self.new) }
        ensures same { is_err result ≡ true → self.new ≡ self.old }
    {
        self.fit()?;
        self.front.shares(coins, COINS_PER_DRAIN)?;
        self.front.drain(coins)?;
        Ok(())
    }

    fn len(&self) -> u32 {
        match self.fit() {
            Ok(()) => LEAVES_PER_PAGE * self.front.below.len(),
            Err(_) => 0,
        }
    }

    fn row_count(&self) -> u8 {
        self.front.row_count()
    }

    fn row_depth(&self, row: u8) -> u32 {
        self.front.row_depth(row)
    }

    fn row_span(&self, row: u8) -> u32 {
        self.front.row_span(row)
    }

    fn row_used(&self, row: u8) -> u32 {
        self.front.row_used(row)
    }

    fn row_entry(&self, row: u8, k: u32) -> Result<BucketNumber, LevelFault<P::Fault>> {
        self.front.row_entry(row, k)
    }
}
