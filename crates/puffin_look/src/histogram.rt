//! Counts durations, so that the one of a rank is known up to a 128th.

ghost use Rattle.std.specs.Prelude.{◌≡◌, ◌≤◌, [], true, false, nat_lt, length, OnOk};
ghost use Rattle.std.specs.List.Sorted.{IsNonDecreasingBy, IsPartitionPoint};
ghost use Rattle.puffin_look.specs.Buckets.{bucket_of, last_of};
ghost use Rattle.puffin_look.specs.inner.Counts.{by_bucket, has_bucket, with_time, bucket_at};

use std::alloc::{AllocError, Global};

/// Returns the bucket of a duration: its own up to 255, and above that one whose durations differ by less than a 128th.
fn bucket_of(time: u64) -> usize
    ensures bucket { result ≡ bucket_of time }
    ensures below { result ≤ time }
{
    if time < 256 {
        time as usize
    } else {
        128 + bucket_of(time / 2)
    }
}

/// Returns the greatest duration in a bucket.
pub(crate) fn last_of(bucket: usize) -> u64
    ensures { result ≡ last_of bucket }
{
    if bucket < 256 {
        bucket as u64
    } else {
        last_of(bucket - 128).saturating_mul(2).saturating_add(1)
    }
}

/// How many durations are in a bucket.
#[derive(Clone, Copy, Debug)]
pub(crate) struct Count {
    pub bucket: usize,
    pub calls: u64,
}

/// Returns whether the count at a place is that of a bucket.
fn has_bucket(counts: &[Count], place: usize, bucket: usize) -> bool
    ensures { result ≡ has_bucket counts.now place bucket }
{
    match counts.get(place) {
        Some(count) => count.bucket == bucket,
        None => false,
    }
}

/// The durations of the calls so far, by bucket. Buckets without calls are left out.
#[derive(Drop)]
pub(crate) struct Histogram {
    pub counts: Vec<Count>,
    ghost sorted: { IsNonDecreasingBy by_bucket counts.items },
}

impl Histogram {
    /// Returns the histogram of no calls.
    pub(crate) fn new(alloc: Global) -> Histogram
        ensures { result.counts.items ≡ [] }
    {
        Histogram {
            counts: Vec::new(alloc),
        }
    }

    /// Returns the place of the first count whose bucket isn't lower.
    fn place_of(&self, bucket: usize) -> usize
        ensures within { result ≤ length self.now.counts.items }
        ensures point { IsPartitionPoint (λ c. nat_lt c.bucket bucket ≡ true)
            (λ c. nat_lt c.bucket bucket ≡ false) self.now.counts.items result }
    {
        self.counts.partition_point(|count| count.bucket < bucket)
    }

    /// Adds a duration.
    pub(crate) fn add(&mut self, time: u64) -> Result<(), AllocError>
        ensures { OnOk result (
            self.new.counts.items ≡ with_time self.old.counts.items (bucket_of time)) }
    {
        let bucket = bucket_of(time);
        let place = self.place_of(bucket);
        if has_bucket(&self.counts, place, bucket) {
            let calls = self.counts[place].calls.saturating_add(1);
            self.counts[place] = Count { bucket, calls };
            return Ok(());
        }
        self.counts.insert(place, Count { bucket, calls: 1 })?;
        Ok(())
    }

    /// Returns the bucket of the duration with a rank, the least having the rank 1. It is 0 if there are fewer durations.
    pub(crate) fn bucket_at(&self, rank: u64) -> usize
        ensures { result ≡ bucket_at self.now.counts.items rank }
    {
        let mut left = rank;
        for count in self.counts.iter() {
            if left <= count.calls {
                return count.bucket;
            }
            left -= count.calls;
        }
        0
    }
}
