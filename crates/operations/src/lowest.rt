// The least value at a tick of some of a curve's buckets. At a tick, the values of a curve in normal form fall from bucket to bucket
// and then rise, since its crossings come one after the other: a walk ends at the first bucket that does not go lower.
ghost use Rattle.std.specs.Prelude.{◌≡◌, ◌≤◌, ◌<◌, ◌^◌, length};
ghost use Rattle.meaning.specs.Curve.{bucket_at, reads};
ghost use Rattle.checks.specs.Cited.{Tells, nth};
ghost use Rattle.checks.specs.Held.{curve_held};
ghost use Rattle.operations.specs.Cited.{LeastOf};

use checks::{Bucket, Curve};

// The value at a tick of the bucket numbered k.
fn value_of(curve: Curve<'_>, k: usize, tick: u64) -> u64
    requires k_in_bounds { k < length (curve_held curve) }
    requires tick_fits { tick ≤ 2 ^ 40 }
    ensures { result ≡ bucket_at (nth (curve_held curve.entry) k) tick 1 }
{
    let here = curve.bucket(k);
    here.rate * tick + here.burst
}

// The least value at a tick of the buckets numbered `from` and on.
pub(crate) fn least_from(curve: Curve<'_>, from: usize, tick: u64) -> u64
    requires from_in_bounds { from < length (curve_held curve) }
    requires tick_fits { tick ≤ 2 ^ 40 }
    ensures { LeastOf (curve_held curve.entry) tick from (length (curve_held curve.entry)) result }
{
    let mut found = value_of(curve, from, tick);
    for k in from + 1..curve.count() {
        let next = value_of(curve, k, tick);
        if found <= next {
            return found;
        }
        found = next;
    }
    found
}

// The least value at a tick of the buckets before the one numbered `end`. (The walk begins at its end, where the least value mostly
// is.)
pub(crate) fn least_before(curve: Curve<'_>, end: usize, tick: u64) -> u64
    requires some { 0 < end }
    requires end_in_bounds { end ≤ length (curve_held curve) }
    requires tick_fits { tick ≤ 2 ^ 40 }
    ensures { LeastOf (curve_held curve.entry) tick 0 end result }
{
    let mut found = value_of(curve, end - 1, tick);
    for k in (0..end - 1).rev() {
        let next = value_of(curve, k, tick);
        if found <= next {
            return found;
        }
        found = next;
    }
    found
}

// Whether a curve carries nothing by tick 1, and so by no tick. In normal form its last bucket is then (0, 0).
pub(crate) fn carries_nothing(curve: Curve<'_>) -> bool
    ensures { Tells (reads (curve_held curve.entry) 1 ≡ 0) result }
{
    curve.last() == Bucket { rate: 0, burst: 0 }
}
