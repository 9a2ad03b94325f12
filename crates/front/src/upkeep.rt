// How a row and the map below it are cleared, how their logs are torn off, and how they are taken apart. Nothing here works a request.
ghost use Rattle.front.specs.Fronts.{Ordered, full_of, rows_of, unfit_of};
ghost use Rattle.front.specs.Upkeep.{Cleared, TornOff};
ghost use Rattle.posmap.specs.Maps.{rows_torn, rows_zeroed};
ghost use Rattle.std.specs.Prelude.{◌≡◌, ℕ, length, replicate, None};

use crate::front::Front;
use posmap::interface::{MapUpkeep, PositionMap};
use row::row::Row;
use store::interface::{BucketStore, StoreUpkeep};
use tree::queue::Queue;

impl<S: StoreUpkeep, P: MapUpkeep> Front<S, P> {
    // Clears the store and the map and empties the queue: whatever they held, the row is then in order.
    pub fn clear(&mut self)
        ensures does { Cleared S.BucketStore P.MapUpkeep.cleared self.old self.new }
        ensures leaves { P.PositionMap.leaves self.new.below ≡ replicate (length (P.PositionMap.leaves self.old.below)) 0 }
        ensures rows { rows_of S.BucketStore P.PositionMap self.new ≡ rows_zeroed (rows_of S.BucketStore P.PositionMap self.old) }
        ensures unfit { (most : ℕ) → unfit_of S.BucketStore P.PositionMap most self.new ≡ unfit_of S.BucketStore P.PositionMap most self.old }
        ensures full { full_of P.PositionMap self.new ≡ None }
        ensures order { Ordered S.BucketStore P.PositionMap self.new }
    {
        self.row.store.clear();
        self.below.clear();
        self.row.queue = Queue::empty();
    }

    // Empties every log and changes nothing else.
    pub fn tear_off(&mut self)
        ensures does { TornOff S.BucketStore P.MapUpkeep.torn self.old self.new }
        ensures leaves { P.PositionMap.leaves self.new.below ≡ P.PositionMap.leaves self.old.below }
        ensures rows { rows_of S.BucketStore P.PositionMap self.new ≡ rows_torn (rows_of S.BucketStore P.PositionMap self.old) }
        ensures unfit { (most : ℕ) → unfit_of S.BucketStore P.PositionMap most self.new ≡ unfit_of S.BucketStore P.PositionMap most self.old }
        ensures full { full_of P.PositionMap self.new ≡ full_of P.PositionMap self.old }
        ensures order { Ordered S.BucketStore P.PositionMap self.old → Ordered S.BucketStore P.PositionMap self.new }
    {
        self.row.store.tear_off();
        self.below.tear_off();
    }
}

impl<S, P> Front<S, P> {
    // Hands store and map back, as they are.
    pub fn into_parts(self) -> (S, P)
        ensures store { result.0 ≡ self.row.store }
        ensures below { result.1 ≡ self.below }
    {
        let Front { row, below } = self;
        let Row {
            store,
            queue: _,
            depth: _,
        } = row;
        (store, below)
    }
}
