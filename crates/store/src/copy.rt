// Generic code over any store.
ghost use Rattle.std.specs.Prelude.{◌≡◌, is_ok, if◌then◌else◌};
ghost use Rattle.store.specs.Stores.{done, entered, refusal};

use crate::fault::StoreFault;
use crate::interface::BucketStore;
use tree::bucket::BUCKET_WORDS;
use tree::numbers::BucketNumber;

// A read and a write make an entry each.
const ENTRIES: u32 = 2;

// Reads bucket n and writes it back unchanged. Both entries must be free before anything is read.
pub fn rewrite_bucket<S: BucketStore>(store: &mut S, n: BucketNumber) -> Result<(), StoreFault>
    ensures answer { result ≡ done (refusal 2 (S.BucketStore.span store.old) (S.BucketStore.log store.old) (S.BucketStore.buckets store.old) n.0) }
    ensures enters { S.BucketStore.log store.new ≡ (if is_ok result then entered (entered (S.BucketStore.log store.old) n.0) n.0 else S.BucketStore.log store.old) }
    ensures holds { S.BucketStore.buckets store.new ≡ S.BucketStore.buckets store.old }
    ensures spans { S.BucketStore.span store.new ≡ S.BucketStore.span store.old }
{
    let free = store.log_span() - store.log_used();
    if free < ENTRIES {
        return Err(StoreFault::Full);
    }
    let mut words = [0; BUCKET_WORDS];
    store.read(n, &mut words)?;
    store.write(n, &words)
}
