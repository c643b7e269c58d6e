// Raw buckets gathered in local memory: those of two curves merged, or those of a curve behind a server.
ghost use Rattle.std.specs.Prelude.{◌≡◌, ◌+◌, ◌≤◌, ◌<◌, ◌^◌, length, map, drop};
ghost use Rattle.checks.specs.Held.{curve_held};
ghost use Rattle.settle.specs.Cited.{numbers};
ghost use Rattle.operations.specs.Cited.{merged, NextOf, line_and_later};

use arrayvec::ArrayVec;
use checks::{Bucket, Curve};

// The next bucket of two curves that are merged: the first one's or the second one's.
#[derive(Clone, Copy, Debug, PartialEq, Eq)]
enum Next {
    First(Bucket),
    Second(Bucket),
}

// The next bucket of two curves merged by falling rates, where i and j of them are passed.
fn next_of(f: Curve<'_>, g: Curve<'_>, i: usize, j: usize) -> Next
    requires some_left { i + j < length (curve_held f) + length (curve_held g) }
    requires inside { (i ≤ length (curve_held f)) × (j ≤ length (curve_held g)) }
    ensures { NextOf (drop i (curve_held f.entry)) (drop j (curve_held g.entry)) result }
{
    let a = f.bucket(i);
    let b = g.bucket(j);
    if g.count() <= j {
        return Next::First(a);
    }
    if f.count() <= i {
        return Next::Second(b);
    }
    if b.rate < a.rate {
        return Next::First(a);
    }
    if a.rate < b.rate {
        return Next::Second(b);
    }
    if a.burst <= b.burst {
        return Next::First(a);
    }
    Next::Second(b)
}

// The buckets of two curves, merged by falling rates.
pub(crate) fn merge(f: Curve<'_>, g: Curve<'_>) -> ArrayVec<[u64; 2], 128>
    ensures { result.items ≡ map numbers (merged (curve_held f.entry) (curve_held g.entry)) }
{
    let mut all = ArrayVec::new();
    let mut i = 0;
    for passed in 0..f.count() + g.count() {
        let bucket = match next_of(f, g, i, passed - i) {
            Next::First(bucket) => {
                i += 1;
                bucket
            }
            Next::Second(bucket) => bucket,
        };
        all.push([bucket.rate, bucket.burst]);
    }
    all
}

// The raw buckets of a curve behind a server: the line, then (r, b + r * latency) for each bucket from `first` on, so that rates
// fall.
pub(crate) fn line_and_later(
    curve: Curve<'_>,
    first: usize,
    line: Bucket,
    latency: u64,
) -> ArrayVec<[u64; 2], 65>
    requires first_in_bounds { first ≤ length (curve_held curve) }
    requires latency_fits { latency < 2 ^ 20 }
    ensures { result.items ≡ map numbers (line_and_later (curve_held curve.entry) first line.rate line.burst latency) }
{
    let mut raw = ArrayVec::new();
    raw.push([line.rate, line.burst]);
    for k in first..curve.count() {
        let here = curve.bucket(k);
        raw.push([here.rate, here.burst + here.rate * latency]);
    }
    raw
}
