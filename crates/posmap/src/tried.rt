// A swap that is tried first, of any map: the meaning of a map is all that is known here.
ghost use Rattle.posmap.specs.Maps.{card_of, leaf_numbers};
ghost use Rattle.posmap.specs.Wholes.{LeafSwapped, swap_refused};
ghost use Rattle.std.specs.Prelude.{◌≡◌, true, is_err, IfOk, OnOk};

use crate::interface::PositionMap;
use tree::numbers::{Leaf, RecordNumber};

// Trial and swap agree, so once the trial passes the swap is made: a refusal leaves any map equal as a value.
pub fn tried_swap<P: PositionMap>(
    map: &mut P,
    number: RecordNumber,
    leaf: Leaf,
    coins: &[Leaf],
) -> Result<Leaf, P::Fault>
    ensures card { card_of P.Fault.CardFault result ≡ swap_refused P.PositionMap map.old number.0 leaf.0 (leaf_numbers coins.now) }
    ensures same { is_err result ≡ true → map.new ≡ map.old }
    ensures order { P.PositionMap.ordered map.old → P.PositionMap.ordered map.new }
    ensures done { P.PositionMap.ordered map.old → IfOk result (λ m. LeafSwapped P.PositionMap map.old map.new number.0 leaf.0 (leaf_numbers coins.now) m.0) }
    ensures does { OnOk result (P.PositionMap.swapped map.old number.0 leaf.0 (leaf_numbers coins.now) map.new) }
{
    map.trial_swap(number, leaf, coins)?;
    map.swap(number, leaf, coins)
}
