// A curve that no line of the refusal table refuses, and its buckets.
ghost use Rattle.meaning.specs.Refusal.{Clear, curve_lines};

use crate::Bucket;

// The list of such a curve, lent. Whoever makes one shows that no line refuses it.
#[derive(Clone, Copy)]
pub struct Curve<'a> {
    pub list: &'a [u64],
    pub ghost clear: { Clear (curve_lines list.now) },
}

impl Curve<'_> {
    ghost use Rattle.std.specs.Prelude.{◌≡◌, length};
    ghost use Rattle.meaning.specs.Server.{last};
    ghost use Rattle.checks.specs.Cited.{bucket_of, nth};
    ghost use Rattle.checks.specs.Held.{curve_held};

    // How many buckets it has.
    pub fn count(self) -> usize
        ensures { result ≡ length (curve_held self.entry) }
    {
        crate::bucket_count(self.list)
    }

    // The bucket numbered k, from 0; (0, 0) where there is none.
    pub fn bucket(self, k: usize) -> Bucket
        ensures { bucket_of result ≡ nth (curve_held self.entry) k }
    {
        crate::bucket_at(self.list, k)
    }

    // Its last bucket.
    pub fn last(self) -> Bucket
        ensures { bucket_of result ≡ last (curve_held self.entry) }
    {
        self.bucket(self.count() - 1)
    }
}
