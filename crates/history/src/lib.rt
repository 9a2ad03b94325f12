// Histories of calls: what they prescribe, and what relabelled coins do. Each function carries a law of the definitions in specs/,
// for every type of record.
#![tactic(auto)]

ghost use Rattle.history.specs.Cases.{RelabellingCase};
ghost use Rattle.history.specs.Secrecy.{RelabelledByNextShowing, LogsAreEqual, LeavesOnlyMove, RelabellingIsOneToOne, Counted};

// The relabelled coins are those that give the second list, at each accepted request and in each row, the first list's new leaf with
// the same next showing, and leave every other coin; there are no others. If the second list names a record not below N, nothing
// moves.
pub fn coins_are_relabelled_by_next_showing<R>()
    ensures { RelabelledByNextShowing R }
{}

// Of two histories side by side, the second with the relabelled coins of the whole lists: after each call every row's prescribed log
// is the same in both.
pub fn logs_are_equal<R>()
    ensures { LogsAreEqual R }
{}

// For each row there is one permutation of the accepted requests, the same for all coins, by which its new leaves move; every other
// coin stays.
pub fn leaves_only_move<R>()
    ensures { LeavesOnlyMove R }
{}

// Relabelling is one-to-one and onto: on all coins of the same shape, among words, and among those below 2 ^ D of their row.
pub fn relabelling_is_one_to_one<R>()
    ensures { RelabellingIsOneToOne R }
{}

// The entries since the last tear-off follow from the sorts of the calls, the accepted turns and the depth alone.
pub fn entries_are_counted<R>()
    ensures { Counted R }
{}

// The bench case: two records, new leaves 1, 0, 1, 1; after the opening records 1, 1 become 0, 1. The relabelled leaves are 0, 1, 1, 1,
// and both lists show 0, 0, 0, 1.
pub fn relabelling_case()
    ensures { RelabellingCase }
{}
