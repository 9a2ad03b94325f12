// Prints the bench cases, a line each, as they come out of the code.
#![tactic(auto)]

mod entries;
mod flushes;

use entries::{MOST, line};
use flushes::{flushed, sample};
use steps::bench_cases;
use tree::bucket::Bucket;
use tree::entries::{Work, moves};
use tree::numbers::{Leaf, RecordNumber};
use tree::paths::{DEEPEST, bucket_at};
use tree::prescribed::{flush_entry, request_entry};

// Cases 1 to 4: a path, the entries of a flush and of a request, and how many there are at depth 12.
fn print_entries(rt: &HostRuntime) -> anyhow::Result<()> {
    let heap = rt.alloc();
    let path = line(
        heap,
        (0..MOST).map_while(|layer| bucket_at(2, Leaf(2), layer)),
    )?;
    println!(rt; "case 1: path of leaf 2 at depth 2: {path}")?;
    let flush = line(heap, (0..MOST).map_while(|k| flush_entry(2, Leaf(2), k)))?;
    println!(rt; "case 2: flush along leaf 2 at depth 2: {flush}")?;
    let request = line(
        heap,
        (0..MOST).map_while(|k| request_entry(1, Leaf(0), Leaf(0), Leaf(1), k)),
    )?;
    println!(rt; "case 3: request at depth 1, shown leaf 0, flush leaves 0 and 1: {request}")?;
    let request = moves(Work::Request, DEEPEST).unwrap();
    let drain = moves(Work::Drain, DEEPEST).unwrap();
    println!(rt; "case 4: at depth {DEEPEST} a request enters {request}, a drain {drain}")?;
    Ok(())
}

// Cases 5 to 7: where the blocks lie after a flush along leaf 3 at depth 2, whose path is 1, 3, 7.
fn print_flushes(rt: &HostRuntime) -> anyhow::Result<()> {
    let heap = rt.alloc();
    let mut root = Bucket::empty();
    let _ = root.put_in(sample(0, Leaf(2)));
    let _ = root.put_in(sample(1, Leaf(3)));
    let line = flushed(heap, root, Bucket::empty())?;
    println!(rt; "case 5: leaves 2 and 3 in the root's places 0 and 1: {line}")?;
    let mut root = Bucket::empty();
    let _ = root.put_in(sample(0, Leaf(3)));
    let _ = root.put_in(sample(2, Leaf(0)));
    let _ = root.put_in(sample(1, Leaf(3)));
    // Taking the middle block out again leaves places 0 and 2 in use.
    let _ = root.take_out(RecordNumber(2));
    let line = flushed(heap, root, Bucket::empty())?;
    println!(rt; "case 6: leaf 3 in the root's places 0 and 2: {line}")?;
    let mut root = Bucket::empty();
    let _ = root.put_in(sample(4, Leaf(3)));
    let mut middle = Bucket::empty();
    for number in 0..4 {
        let _ = middle.put_in(sample(number, Leaf(2)));
    }
    let line = flushed(heap, root, middle)?;
    println!(rt; "case 7: leaf 3 in the root, bucket 3 full of leaf 2: {line}")?;
    Ok(())
}

fn main(rt: HostRuntime) -> anyhow::Result<()> {
    print_entries(&rt)?;
    print_flushes(&rt)?;
    let count = bench_cases();
    println!(rt; "{count} cases")?;
    Ok(())
}
