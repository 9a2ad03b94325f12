// Calls as values, so that one list of them drives stores of any type.
use std::alloc::{AllocError, Global};
use store::copy::rewrite_bucket;
use store::fault::StoreFault;
use store::interface::StoreUpkeep;
use tree::numbers::BucketNumber;

#[derive(Clone, Copy)]
pub enum Call {
    Read(u32),
    Write(u32, u32),
    Rewrite(u32),
    TearOff,
    Clear,
}

// What a store shows after a call: the answer, the caller's place, its counts, and its log with one entry past it.
#[derive(PartialEq, Eq, Debug, Drop)]
pub struct Shown {
    answer: Result<(), StoreFault>,
    place: [u32; 40],
    buckets: u32,
    span: u32,
    log: Vec<Result<BucketNumber, StoreFault>>,
}

pub(crate) fn play<S: StoreUpkeep>(
    alloc: Global,
    store: &mut S,
    call: Call,
) -> Result<Shown, AllocError> {
    let mut place = [7; 40];
    let answer = match call {
        Call::Read(n) => store.read(BucketNumber(n), &mut place),
        Call::Write(n, word) => store.write(BucketNumber(n), &[word; 40]),
        Call::Rewrite(n) => rewrite_bucket(store, BucketNumber(n)),
        Call::TearOff => {
            store.tear_off();
            Ok(())
        }
        Call::Clear => {
            store.clear();
            Ok(())
        }
    };
    Ok(Shown {
        answer,
        place,
        buckets: store.bucket_count(),
        span: store.log_span(),
        log: entries(alloc, store)?,
    })
}

fn entries<S: StoreUpkeep>(
    alloc: Global,
    store: &S,
) -> Result<Vec<Result<BucketNumber, StoreFault>>, AllocError> {
    (0..=store.log_used())
        .map(|k| store.log_entry(k))
        .collect(alloc)
}
