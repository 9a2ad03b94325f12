// Whether a row and the map below it can work together.
ghost use Rattle.std.specs.Prelude.{◌≡◌, suc, ◌*◌, min, length, ◌==◌};
ghost use Rattle.front.specs.Fronts.{fit_up_to, front_card, front_unfit, is_fit_up_to, own, unfit_of};
ghost use Rattle.posmap.specs.Faults.{last_row};
ghost use Rattle.posmap.specs.Maps.{leaf_numbers, naming, unless};

use crate::front::Front;
use card::cause::Cause;
use card::fault::CardFault;
use posmap::fault::LevelFault;
use posmap::interface::PositionMap;
use row::trial::is_fit;
use store::interface::BucketStore;
use tree::numbers::Leaf;

// How many rows below are too many: a row's number is one byte.
const TOO_MANY_ROWS: u8 = 255;

// How many coins each row takes of a request, and of a drain.
pub const COINS_PER_REQUEST: u8 = 3;

pub const COINS_PER_DRAIN: u8 = 1;

// Whether a row by itself is fit, where the map below may have so many leaves. For whoever has store and map by reference, as the next
// two; a front answers the same.
pub fn is_fit_up_to<S: BucketStore, P: PositionMap>(
    most: u32,
    store: &S,
    below: &P,
    depth: u32,
) -> bool
    ensures { result ≡ fit_up_to most depth (length (S.BucketStore.buckets store.now)) (length (P.PositionMap.leaves below.now)) (length (P.PositionMap.rows below.now)) }
{
    is_fit(depth, store.bucket_count())
        && (1..=most).contains(&below.len())
        && below.row_count() < TOO_MANY_ROWS
}

// How an unfit row is refused. A row below is named first, by the map's own answer: a trial with no coins is answered by 1 exactly if
// a row is unfit.
pub fn fitness<S: BucketStore, P: PositionMap>(
    most: u32,
    store: &S,
    below: &P,
    depth: u32,
) -> Result<(), LevelFault<P::Fault>>
    ensures { front_card P.Fault.CardFault result ≡ naming 1 (front_unfit (fit_up_to most depth (length (S.BucketStore.buckets store.now)) (length (P.PositionMap.leaves below.now)) (length (P.PositionMap.rows below.now))) (P.PositionMap.unfit below.now)) }
{
    if let Err(fault) = below.trial_drain(&[]) {
        if fault.cause() == Cause::Unfit {
            return Err(LevelFault::from(fault));
        }
    }
    if !is_fit_up_to(most, store, below, depth) {
        return Err(LevelFault::Unfit);
    }
    Ok(())
}

// How coins are refused that are not a share for each row, the row itself and those below.
pub fn shares<P: PositionMap>(
    below: &P,
    coins: &[Leaf],
    share: u8,
) -> Result<(), LevelFault<P::Fault>>
    ensures { front_card P.Fault.CardFault result ≡ unless (length (leaf_numbers coins.now) == share * suc (min last_row (length (P.PositionMap.rows below.now)))) (own 5) }
{
    if coins.len() != usize::from(share) * (usize::from(below.row_count()) + 1) {
        return Err(LevelFault::WrongCoins);
    }
    Ok(())
}

impl<S: BucketStore, P: PositionMap> Front<S, P> {
    // Whether the row by itself is fit, where the map below may have so many leaves.
    pub fn is_fit_up_to(&self, most: u32) -> bool
        ensures { result ≡ is_fit_up_to S.BucketStore P.PositionMap most self.now }
    {
        is_fit_up_to(most, &self.row.store, &self.below, self.row.depth)
    }

    // How an unfit row is refused.
    pub fn fitness(&self, most: u32) -> Result<(), LevelFault<P::Fault>>
        ensures { front_card P.Fault.CardFault result ≡ naming 1 (unfit_of S.BucketStore P.PositionMap most self.now) }
    {
        fitness(most, &self.row.store, &self.below, self.row.depth)
    }

    // How coins are refused that are not a share for each row.
    pub fn shares(&self, coins: &[Leaf], share: u8) -> Result<(), LevelFault<P::Fault>>
        ensures { front_card P.Fault.CardFault result ≡ unless (length (leaf_numbers coins.now) == share * suc (min last_row (length (P.PositionMap.rows self.now.below)))) (own 5) }
    {
        shares(&self.below, coins, share)
    }
}
