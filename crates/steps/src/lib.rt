// The steps of a row as definitions, their laws, and the bench cases.
#![tactic(auto)]

ghost use Rattle.steps.specs.Bench.{BenchTableStands, bench_table};
ghost use Rattle.steps.specs.Laws.{StepsKeepShape, FetchTakesExactly, StepsRearrange, StepsKeepPlaced, StepsLeaveTheRest};
ghost use Rattle.steps.specs.Order.{OrderKept};
ghost use Rattle.std.specs.Prelude.{◌≡◌, length};

// Each step keeps the number of buckets, and four places each.
pub fn steps_keep_shape()
    ensures { StepsKeepShape }
{}

// A fetch takes out exactly the blocks of that number on the path and in the queue, and answers the first of them.
pub fn fetch_takes_exactly()
    ensures { FetchTakesExactly }
{}

// Put-back and flush lose nothing and double nothing.
pub fn steps_rearrange()
    ensures { StepsRearrange }
{}

// After every step each block has its bucket on its own path, if that was so before.
pub fn steps_keep_placed()
    ensures { StepsKeepPlaced }
{}

// Off the path nothing changes.
pub fn steps_leave_the_rest()
    ensures { StepsLeaveTheRest }
{}

// A row is in order if no number stands twice, each block stands on the path of the leaf that the list has for its number, and
// each place is empty or a block. A cleared row is in order and holds nothing. The first half of a request, along the leaf of its
// number, keeps order, answers the block of that number and takes out no other. The second half keeps order; the number then
// holds what arrived, or nothing, and every other number what it held. A dequeue alone keeps order and all that is held. With at
// most 31 numbers the queue never holds 32 blocks.
pub fn order_is_kept()
    ensures { OrderKept }
{}

// How many bench cases there are. Its contract has the whole table: in every case the definitions give what the rules say.
pub fn bench_cases() -> usize
    ensures count { result ≡ length bench_table }
    ensures table { BenchTableStands }
{
    7
}
