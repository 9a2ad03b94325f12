// How a row and the map below it refuse together, from the coins on: the smallest number, and of equal numbers the row's own.
ghost use Rattle.std.specs.Prelude.{◌≡◌, [], ◌∷◌, length};
ghost use Rattle.front.specs.Fronts.{drain_from, drain_refusal_from, first_card, front_card, own_drain, own_request, request_from, request_refusal_from};
ghost use Rattle.posmap.specs.Maps.{card_of, leaf_numbers};
ghost use Rattle.tree.specs.Queues.{queued};

use crate::front::Front;
use card::cause::Cause;
use card::fault::CardFault;
use posmap::fault::LevelFault;
use posmap::interface::PositionMap;
use row::moves::{dequeue_moves, has_free, request_moves};
use store::interface::BucketStore;
use tree::numbers::{Leaf, RecordNumber};
use tree::paths::is_leaf;
use tree::queue::Queue;

// The lower fault comes first if it is 1, by which the deepest unfit row is named, or smaller than the row's own.
fn first_of<F: CardFault + Drop>(
    own: Result<(), LevelFault<F>>,
    lower: Result<(), F>,
) -> Result<(), LevelFault<F>>
    ensures { front_card F.CardFault result ≡ first_card (front_card F.CardFault own) (card_of F.CardFault lower) }
{
    let Err(fault) = lower else {
        return own;
    };
    let Err(mine) = own else {
        return Err(LevelFault::from(fault));
    };
    let cause = fault.cause();
    if cause == Cause::Unfit || cause < mine.cause() {
        return Err(LevelFault::from(fault));
    }
    Err(mine)
}

// How the row by itself refuses a request with these three coins.
fn own_request<F: CardFault, S: BucketStore>(
    store: &S,
    queue: &Queue,
    depth: u32,
    new: Leaf,
    first: Leaf,
    second: Leaf,
) -> Result<(), LevelFault<F>>
    ensures { front_card F.CardFault result ≡ own_request depth (S.BucketStore.span store.now) (S.BucketStore.log store.now) (length (queued queue.now)) (new.0 ∷ first.0 ∷ second.0 ∷ []) }
{
    if !(is_leaf(depth, new) && is_leaf(depth, first) && is_leaf(depth, second)) {
        return Err(LevelFault::NoLeaf);
    }
    if !has_free(store, request_moves(depth)) {
        return Err(LevelFault::LogFull);
    }
    if queue.is_full() {
        return Err(LevelFault::QueueFull);
    }
    Ok(())
}

// How the row by itself refuses a drain along this coin. A full queue does not refuse it.
fn own_drain<F: CardFault, S: BucketStore>(
    store: &S,
    depth: u32,
    along: Leaf,
) -> Result<(), LevelFault<F>>
    ensures { front_card F.CardFault result ≡ own_drain depth (S.BucketStore.span store.now) (S.BucketStore.log store.now) (along.0 ∷ []) }
{
    if !is_leaf(depth, along) {
        return Err(LevelFault::NoLeaf);
    }
    if !has_free(store, dequeue_moves(depth)) {
        return Err(LevelFault::LogFull);
    }
    Ok(())
}

// How a request is refused by row and map, the map being asked for a number with the coins that the row leaves. For whoever has store
// and map by reference, as the next; a front answers the same.
pub fn trial_request<S: BucketStore, P: PositionMap>(
    store: &S,
    below: &P,
    queue: &Queue,
    depth: u32,
    number: RecordNumber,
    coins: &[Leaf],
) -> Result<(), LevelFault<P::Fault>>
    ensures { front_card P.Fault.CardFault result ≡ request_from (P.PositionMap.leaves below.now) (P.PositionMap.rows below.now) (P.PositionMap.unfit below.now) (P.PositionMap.full below.now) number.0 depth (S.BucketStore.span store.now) (S.BucketStore.log store.now) (length (queued queue.now)) (leaf_numbers coins.now) }
{
    let [new, first, second, rest @ ..] = coins else {
        return Err(LevelFault::WrongCoins);
    };
    let own = own_request(store, queue, depth, *new, *first, *second);
    first_of(own, below.trial_swap(number, *new, rest))
}

// And a drain.
pub fn trial_drain<S: BucketStore, P: PositionMap>(
    store: &S,
    below: &P,
    depth: u32,
    coins: &[Leaf],
) -> Result<(), LevelFault<P::Fault>>
    ensures { front_card P.Fault.CardFault result ≡ drain_from (P.PositionMap.rows below.now) (P.PositionMap.unfit below.now) depth (S.BucketStore.span store.now) (S.BucketStore.log store.now) (leaf_numbers coins.now) }
{
    let [along, rest @ ..] = coins else {
        return Err(LevelFault::WrongCoins);
    };
    let own = own_drain(store, depth, *along);
    first_of(own, below.trial_drain(rest))
}

impl<S: BucketStore, P: PositionMap> Front<S, P> {
    // How a request is refused by row and map.
    pub fn trial_request(
        &self,
        number: RecordNumber,
        coins: &[Leaf],
    ) -> Result<(), LevelFault<P::Fault>>
        ensures { front_card P.Fault.CardFault result ≡ request_refusal_from S.BucketStore P.PositionMap self.now number.0 (leaf_numbers coins.now) }
    {
        let row = &self.row;
        trial_request(
            &row.store,
            &self.below,
            &row.queue,
            row.depth,
            number,
            coins,
        )
    }

    // And a drain.
    pub fn trial_drain(&self, coins: &[Leaf]) -> Result<(), LevelFault<P::Fault>>
        ensures { front_card P.Fault.CardFault result ≡ drain_refusal_from S.BucketStore P.PositionMap self.now (leaf_numbers coins.now) }
    {
        trial_drain(&self.row.store, &self.below, self.row.depth, coins)
    }
}
