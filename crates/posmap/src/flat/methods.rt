// What a flat map does: it keeps each leaf where the number says, and refuses all that it has no leaf or no use for.
ghost use Rattle.posmap.specs.Faults.{flat_card};
ghost use Rattle.posmap.specs.Flat.{flat_cleared, flat_drained, flat_leaves, flat_length, flat_ordered, flat_swapped, flat_torn, longest};
ghost use Rattle.posmap.specs.Maps.{DrainDone, SameFrame, SameMeaning, SwapDone, card_of, drain_refusal, leaf_numbers, swap_refusal};
ghost use Rattle.std.specs.Prelude.{◌≡◌, true, [], replicate, is_err, IfOk, None, OnOk};

use crate::fault::FlatFault;
use crate::flat::{FlatMap, LONGEST};
use crate::interface::{MapUpkeep, PositionMap, WIDEST_LEAF};
use tree::numbers::{BucketNumber, Leaf, RecordNumber};

// How many coins a call takes: coins are for rows, and there is none.
const COINS: usize = 0;

impl FlatMap {
    // A map of no number would have nothing to answer, so 0 is taken as 1; what is above 128 is taken as 128.
    pub fn new(length: u32) -> FlatMap
        ensures table { result.table ≡ replicate longest 0 }
        ensures leaves { flat_leaves result ≡ replicate (flat_length length) 0 }
    {
        let len = length.clamp(1, LONGEST);
        FlatMap {
            table: [0; LONGEST as usize],
            len,
        }
    }
}

impl PositionMap for FlatMap {
    type Fault = FlatFault;

    ghost ordered = { flat_ordered };

    ghost leaves = { flat_leaves };

    ghost rows = { λ _. [] };

    ghost unfit = { λ _. None };

    ghost full = { λ _. None };

    ghost swapped = { flat_swapped };

    ghost drained = { flat_drained };

    ghost facts = { λ _. record { unfit_named = tt; full_named = tt; own_leaves = λ _. tt; small_never_full = λ _. tt } };

    fn trial_swap(
        &self,
        number: RecordNumber,
        leaf: Leaf,
        coins: &[Leaf],
    ) -> Result<(), FlatFault> {
        if number.0 >= self.len {
            return Err(FlatFault::NoNumber);
        }
        if coins.len() != COINS {
            return Err(FlatFault::WrongCoins);
        }
        if leaf.0 > WIDEST_LEAF {
            return Err(FlatFault::WideLeaf);
        }
        Ok(())
    }

    // A refused swap leaves the map as it was, value for value.
    fn swap(&mut self, number: RecordNumber, leaf: Leaf, coins: &[Leaf]) -> Result<Leaf, FlatFault>
        ensures card { card_of flat_card result ≡ swap_refusal (flat_leaves self.old) [] None None number.0 leaf.0 (leaf_numbers coins.now) }
        ensures frame { SameFrame (flat_leaves self.old) (flat_leaves self.new) [] [] None None }
        ensures order { flat_ordered self.old → flat_ordered self.new }
        ensures refused { is_err result ≡ true → SameMeaning (flat_leaves self.old) (flat_leaves self.new) [] [] None None }
        ensures done { flat_ordered self.old → IfOk result (λ m. SwapDone (flat_leaves self.old) (flat_leaves self.new) [] [] number.0 leaf.0 (leaf_numbers coins.now) m.0) }
        ensures does { OnOk result (flat_swapped self.old number.0 leaf.0 (leaf_numbers coins.now) self.new) }
        ensures same { is_err result ≡ true → self.new ≡ self.old }
    {
        self.trial_swap(number, leaf, coins)?;
        let place = number.0 as usize;
        let old = self.table[place];
        self.table[place] = leaf.0;
        Ok(Leaf(old))
    }

    fn trial_drain(&self, coins: &[Leaf]) -> Result<(), FlatFault> {
        if coins.len() != COINS {
            return Err(FlatFault::WrongCoins);
        }
        Ok(())
    }

    // Nothing waits for a place: a drain leaves the map as it was, value for value, and so does a refused one.
    fn drain(&mut self, coins: &[Leaf]) -> Result<(), FlatFault>
        ensures card { card_of flat_card result ≡ drain_refusal [] None (leaf_numbers coins.now) }
        ensures frame { SameFrame (flat_leaves self.old) (flat_leaves self.new) [] [] None None }
        ensures order { flat_ordered self.old → flat_ordered self.new }
        ensures refused { is_err result ≡ true → SameMeaning (flat_leaves self.old) (flat_leaves self.new) [] [] None None }
        ensures done { flat_ordered self.old → OnOk result (DrainDone (flat_leaves self.old) (flat_leaves self.new) [] [] (leaf_numbers coins.now)) }
        ensures does { OnOk result (flat_drained self.old (leaf_numbers coins.now) self.new) }
        ensures same { self.new ≡ self.old }
    {
        self.trial_drain(coins)
    }

    fn len(&self) -> u32 {
        self.len
    }

    // No row is there, so all that is asked of one is 0, and an entry is refused.
    fn row_count(&self) -> u8 {
        0
    }

    fn row_depth(&self, _row: u8) -> u32 {
        0
    }

    fn row_span(&self, _row: u8) -> u32 {
        0
    }

    fn row_used(&self, _row: u8) -> u32 {
        0
    }

    fn row_entry(&self, row: u8, _k: u32) -> Result<BucketNumber, FlatFault> {
        Err(FlatFault::NoEntry(row))
    }
}

impl MapUpkeep for FlatMap {
    ghost cleared = { flat_cleared };

    ghost torn = { flat_torn };

    // The whole table, so that nothing of the old leaves stays behind.
    fn clear(&mut self) {
        self.table = [0; LONGEST as usize];
    }

    // There is no log to empty.
    fn tear_off(&mut self) {}
}
