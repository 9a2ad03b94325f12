// How a level is made, taken apart, cleared, and how its logs are torn off. Nothing here works a request.
ghost use Rattle.front.specs.Fronts.{rows_with, unfit_with};
ghost use Rattle.level.specs.Levels.{level_length, most_pages};
ghost use Rattle.front.specs.Upkeep.{Cleared, TornOff};
ghost use Rattle.level.specs.Meaning.{Ordered, full_of, leaves_of, rows_of, unfit_of};
ghost use Rattle.posmap.specs.Maps.{rows_zeroed};
ghost use Rattle.std.specs.Prelude.{◌≡◌, [], length, replicate, None};
ghost use Rattle.store.specs.Stores.{zeroed};
ghost use Rattle.tree.specs.Queues.{queued};

use crate::level::Level;
use front::front::Front;
use posmap::interface::{MapUpkeep, PositionMap};
use row::row::Row;
use store::interface::{BucketStore, StoreUpkeep};
use tree::queue::Queue;

impl<S: StoreUpkeep, P: MapUpkeep> Level<S, P> {
    // The only way to make a level. It clears the store and the map, so that whatever they held, the level is in order.
    pub fn begin(store: S, below: P, depth: u32) -> Level<S, P>
        ensures depth { result.front.row.depth ≡ depth }
        ensures span { S.BucketStore.span result.front.row.store ≡ S.BucketStore.span store }
        ensures buckets { S.BucketStore.buckets result.front.row.store ≡ zeroed (S.BucketStore.buckets store) }
        ensures log { S.BucketStore.log result.front.row.store ≡ [] }
        ensures queue { queued result.front.row.queue ≡ [] }
        ensures below { P.MapUpkeep.cleared below result.front.below }
        ensures rows { rows_of S.BucketStore P.PositionMap result ≡ rows_zeroed (rows_with S.BucketStore P.PositionMap store below depth) }
        ensures unfit { unfit_of S.BucketStore P.PositionMap result ≡ unfit_with S.BucketStore P.PositionMap most_pages store below depth }
        ensures leaves { leaves_of S.BucketStore P.PositionMap result ≡ replicate (level_length (unfit_with S.BucketStore P.PositionMap most_pages store below depth) (length (P.PositionMap.leaves below))) 0 }
        ensures full { full_of P.PositionMap result ≡ None }
        ensures order { Ordered S.BucketStore P.PositionMap result }
    {
        let row = Row {
            store,
            queue: Queue::empty(),
            depth,
        };
        let mut front = Front { row, below };
        front.clear();
        Level { front }
    }
}

impl<S, P> Level<S, P> {
    // Hands store and map back, as they are.
    pub fn into_parts(self) -> (S, P)
        ensures store { result.0 ≡ self.front.row.store }
        ensures below { result.1 ≡ self.front.below }
    {
        let Level { front } = self;
        front.into_parts()
    }
}

impl<S: StoreUpkeep, P: MapUpkeep> MapUpkeep for Level<S, P> {
    ghost cleared = { λ s t. Cleared S.BucketStore P.MapUpkeep.cleared s.front t.front };

    ghost torn = { λ s t. TornOff S.BucketStore P.MapUpkeep.torn s.front t.front };

    fn clear(&mut self) {
        self.front.clear();
    }

    fn tear_off(&mut self) {
        self.front.tear_off();
    }
}
