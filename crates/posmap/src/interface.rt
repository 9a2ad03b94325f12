// What a position map means. Code above knows a map by this alone.
ghost use Rattle.std.specs.Prelude.{◌≡◌, ℕ, min, true, List, length, replicate, is_err, IfOk, None, Option, OnOk, slice_index};
ghost use Rattle.posmap.specs.Maps.{DrainDone, MapFacts, MapRow, SameFrame, SameMeaning, SwapDone, card_of, drain_refusal, entry_refusal, leaf_numbers, row_at, rows_torn, rows_zeroed, swap_refusal};

use card::fault::CardFault;
use tree::numbers::{BucketNumber, Leaf, RecordNumber};

// The widest leaf that a map may be given: no row is deeper than 12.
pub const WIDEST_LEAF: u32 = 4095;

// Within this trait a log can only grow: what works a request is bounded by it alone, and so cannot take an entry back.
pub trait PositionMap {
    type Fault: CardFault + Drop;

    // What the map holds is what its calls have put there.
    ghost ordered: { Self → Type 0 };

    // The leaf of each number.
    ghost leaves: { Self → List ℕ };

    // The rows in which the map itself is kept, the outermost first.
    ghost rows: { Self → List MapRow };

    // The deepest row that is unfit, if one is.
    ghost unfit: { Self → Option ℕ };

    // The lowest row whose queue is full, if one is.
    ghost full: { Self → Option ℕ };

    // All that this very map does as it swaps a number's leaf for a new one under coins, and as it drains.
    ghost swapped: { Self → ℕ → ℕ → List ℕ → Self → Type 0 };

    ghost drained: { Self → List ℕ → Self → Type 0 };

    // What holds of every map.
    ghost facts: { (s : Self) → MapFacts (ordered s) (leaves s) (rows s) (unfit s) (full s) };

    // How a swap would be refused. Changes nothing.
    fn trial_swap(
        &self,
        number: RecordNumber,
        leaf: Leaf,
        coins: &[Leaf],
    ) -> Result<(), Self::Fault>
        ensures { card_of Self.Fault.CardFault result ≡ swap_refusal (leaves self.now) (rows self.now) (unfit self.now) (full self.now) number.0 leaf.0 (leaf_numbers coins.now) };

    // Answers the leaf of a number and puts a new one there; each row does a request.
    fn swap(
        &mut self,
        number: RecordNumber,
        leaf: Leaf,
        coins: &[Leaf],
    ) -> Result<Leaf, Self::Fault>
        ensures card { card_of Self.Fault.CardFault result ≡ swap_refusal (leaves self.old) (rows self.old) (unfit self.old) (full self.old) number.0 leaf.0 (leaf_numbers coins.now) }
        ensures frame { SameFrame (leaves self.old) (leaves self.new) (rows self.old) (rows self.new) (unfit self.old) (unfit self.new) }
        ensures order { ordered self.old → ordered self.new }
        ensures refused { is_err result ≡ true → SameMeaning (leaves self.old) (leaves self.new) (rows self.old) (rows self.new) (full self.old) (full self.new) }
        ensures done { ordered self.old → IfOk result (λ m. SwapDone (leaves self.old) (leaves self.new) (rows self.old) (rows self.new) number.0 leaf.0 (leaf_numbers coins.now) m.0) }
        ensures does { OnOk result (swapped self.old number.0 leaf.0 (leaf_numbers coins.now) self.new) };

    // How a drain would be refused. Changes nothing.
    fn trial_drain(&self, coins: &[Leaf]) -> Result<(), Self::Fault>
        ensures { card_of Self.Fault.CardFault result ≡ drain_refusal (rows self.now) (unfit self.now) (leaf_numbers coins.now) };

    // One dequeue in every row.
    fn drain(&mut self, coins: &[Leaf]) -> Result<(), Self::Fault>
        ensures card { card_of Self.Fault.CardFault result ≡ drain_refusal (rows self.old) (unfit self.old) (leaf_numbers coins.now) }
        ensures frame { SameFrame (leaves self.old) (leaves self.new) (rows self.old) (rows self.new) (unfit self.old) (unfit self.new) }
        ensures order { ordered self.old → ordered self.new }
        ensures refused { is_err result ≡ true → SameMeaning (leaves self.old) (leaves self.new) (rows self.old) (rows self.new) (full self.old) (full self.new) }
        ensures done { ordered self.old → OnOk result (DrainDone (leaves self.old) (leaves self.new) (rows self.old) (rows self.new) (leaf_numbers coins.now)) }
        ensures does { OnOk result (drained self.old (leaf_numbers coins.now) self.new) };

    // How many leaves there are.
    fn len(&self) -> u32
        ensures { result ≡ length (leaves self.now) };

    // How many rows there are; the count stops at 255.
    fn row_count(&self) -> u8
        ensures { result ≡ min 255 (length (rows self.now)) };

    // A row's depth, span and entries used: 0 of a missing row.
    fn row_depth(&self, row: u8) -> u32
        ensures { result ≡ (row_at (rows self.now) row).depth };

    fn row_span(&self, row: u8) -> u32
        ensures { result ≡ (row_at (rows self.now) row).span };

    fn row_used(&self, row: u8) -> u32
        ensures { result ≡ length (row_at (rows self.now) row).log };

    // Entry k of a row's log, counted from 0, the oldest.
    fn row_entry(&self, row: u8, k: u32) -> Result<BucketNumber, Self::Fault>
        ensures card { card_of Self.Fault.CardFault result ≡ entry_refusal (rows self.now) row k }
        ensures value { IfOk result (λ b. b.0 ≡ slice_index (row_at (rows self.now) row).log k) };
}

// What the owner of a map may do besides. Neither call is ever refused.
pub trait MapUpkeep: PositionMap {
    // All that this very map does as it is cleared, and as its logs are torn off.
    ghost cleared: { Self → Self → Type 0 };

    ghost torn: { Self → Self → Type 0 };

    // Makes all leaves 0, clears stores and queues and empties every log: any map is then in order.
    fn clear(&mut self)
        ensures leaves { Self.PositionMap.leaves self.new ≡ replicate (length (Self.PositionMap.leaves self.old)) 0 }
        ensures rows { Self.PositionMap.rows self.new ≡ rows_zeroed (Self.PositionMap.rows self.old) }
        ensures unfit { Self.PositionMap.unfit self.new ≡ Self.PositionMap.unfit self.old }
        ensures full { Self.PositionMap.full self.new ≡ None }
        ensures order { Self.PositionMap.ordered self.new }
        ensures does { cleared self.old self.new };

    // Empties every log and changes nothing else.
    fn tear_off(&mut self)
        ensures leaves { Self.PositionMap.leaves self.new ≡ Self.PositionMap.leaves self.old }
        ensures rows { Self.PositionMap.rows self.new ≡ rows_torn (Self.PositionMap.rows self.old) }
        ensures unfit { Self.PositionMap.unfit self.new ≡ Self.PositionMap.unfit self.old }
        ensures full { Self.PositionMap.full self.new ≡ Self.PositionMap.full self.old }
        ensures order { Self.PositionMap.ordered self.old → Self.PositionMap.ordered self.new }
        ensures does { torn self.old self.new };
}
