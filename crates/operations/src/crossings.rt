// Where two neighbours of a curve cross.
ghost use Rattle.std.specs.Prelude.{◌<◌, length};
ghost use Rattle.checks.specs.Held.{curve_held};
ghost use Rattle.operations.specs.Cited.{CrossingAt};

use checks::Curve;

// The time at which a bucket and the one before it have one value: rise / fall, by what the burst rises and the rate falls from the
// one to the other.
#[derive(Clone, Copy, Debug, PartialEq, Eq)]
pub(crate) struct Crossing {
    pub(crate) rise: u64,
    pub(crate) fall: u64,
}

// The crossing of the bucket numbered k, from 0, with the one before it.
pub(crate) fn crossing_at(curve: Curve<'_>, k: usize) -> Crossing
    requires past_the_first { (0 < k) × (k < length (curve_held curve)) }
    ensures { CrossingAt (curve_held curve.entry) k result }
{
    let before = curve.bucket(k - 1);
    let here = curve.bucket(k);
    Crossing {
        rise: here.burst - before.burst,
        fall: before.rate - here.rate,
    }
}
