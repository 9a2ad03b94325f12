// How an Oram is begun and taken apart, and how its logs are torn off. Nothing here works a request.
ghost use Rattle.std.specs.Prelude.{◌≡◌, ℕ, List, [], length, None};
ghost use Rattle.front.specs.Fronts.{fit_up_to, front_rows, front_unfit};
ghost use Rattle.history.specs.Histories.{tearing};
ghost use Rattle.oram.specs.Calls.{Does, did};
ghost use Rattle.oram.specs.Orams.{Begun, most_records, records_of, rows_of, unfit_of};
ghost use Rattle.oram.specs.Runs.{RunsAreWorked};
ghost use Rattle.oram.specs.Worked.{Lawful, Worked};
ghost use Rattle.posmap.specs.Maps.{rows_zeroed};
ghost use Rattle.store.specs.Stores.{zeroed};

use crate::oram::Oram;
use front::front::Front;
use posmap::interface::MapUpkeep;
use record::kind::RecordKind;
use row::row::Row;
use std::marker::PhantomData;
use store::interface::StoreUpkeep;
use tree::queue::Queue;

impl<K: RecordKind, S: StoreUpkeep, P: MapUpkeep> Oram<K, S, P> {
    // The only way to make an Oram. It clears the store and the map, so that whatever they held, the Oram is in order. Its contract
    // has the law of every run that begins so.
    pub fn begin(store: S, below: P, depth: u32) -> Oram<K, S, P>
        ensures begun { Begun S.BucketStore P.PositionMap result }
        ensures depth { result.front.row.depth ≡ depth }
        ensures buckets { S.BucketStore.buckets result.front.row.store ≡ zeroed (S.BucketStore.buckets store) }
        ensures records { records_of P.PositionMap result ≡ length (P.PositionMap.leaves below) }
        ensures rows { rows_of S.BucketStore P.PositionMap result ≡ rows_zeroed (front_rows depth (P.PositionMap.leaves below) (S.BucketStore.span store) (S.BucketStore.log store) (P.PositionMap.rows below)) }
        ensures unfit { unfit_of S.BucketStore P.PositionMap result ≡ front_unfit (fit_up_to most_records depth (length (S.BucketStore.buckets store)) (length (P.PositionMap.leaves below)) (length (P.PositionMap.rows below))) (P.PositionMap.unfit below) }
        ensures below { P.MapUpkeep.cleared below result.front.below }
        ensures worked { Worked K.RecordKind S.BucketStore P.PositionMap [] result }
        ensures runs { RunsAreWorked K.RecordKind S.BucketStore P.PositionMap }
    {
        let queue = Queue::empty();
        let row = Row {
            store,
            queue,
            depth,
        };
        let mut front = Front { row, below };
        front.clear();
        Oram {
            front,
            opened: 0,
            kind: PhantomData,
        }
    }

    // Empties every row's log and changes nothing else, whatever coins are brought along. Not public yet: it becomes a call of an Oram
    // together with the run that lays two lists of calls side by side.
    pub(crate) fn tear_off(&mut self)
        ensures does { (coins : List ℕ) → Does K.RecordKind S.BucketStore P.PositionMap coins self.old self.new tearing (did None) }
        ensures law { (coins : List ℕ) → Lawful K.RecordKind S.BucketStore P.PositionMap coins self.old self.new tearing (did None) }
        ensures below { P.MapUpkeep.torn self.old.front.below self.new.front.below }
    {
        self.front.tear_off();
    }
}

impl<K, S, P> Oram<K, S, P> {
    // Hands store and map back, as they are.
    pub fn into_parts(self) -> (S, P)
        ensures store { result.0 ≡ self.front.row.store }
        ensures below { result.1 ≡ self.front.below }
    {
        let Oram {
            front,
            opened: _,
            kind: _,
        } = self;
        front.into_parts()
    }
}
