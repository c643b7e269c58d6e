// normalise, lower, sum and shape: each answers a curve, in a part of a lent table.
ghost use Rattle.std.specs.Prelude.{take};
ghost use Rattle.meaning.specs.Curve.{flat};
ghost use Rattle.meaning.specs.Computed.{merged_sum};
ghost use Rattle.meaning.specs.CurveQuestions.{normalising, lowering, summing, shaping};
ghost use Rattle.checks.specs.Held.{curve_held};
ghost use Rattle.settle.specs.Cited.{settling, delivering};
ghost use Rattle.settle.specs.Parts.{Answers};
ghost use Rattle.operations.specs.Cited.{merged};

use crate::{adding, gather};
use checks::{Curve, Refusal};
use settle::deliver::deliver;
use settle::{Part, settle};

// A raw list brought to normal form.
pub fn normalise(raw: &[u64], table: &mut [u64], part: Part) -> Result<usize, Refusal>
    ensures { Answers (normalising raw.now) part table.old table.new result }
{
    checks::raw(raw)?;
    settle(raw, table, part)
}

// The normal form of two curves' buckets together.
fn together(f: Curve<'_>, g: Curve<'_>, table: &mut [u64], part: Part) -> Result<usize, Refusal>
    ensures { Answers (settling (flat (merged (curve_held f.entry) (curve_held g.entry)))) part table.old table.new result }
{
    let all = gather::merge(f, g);
    settle(all.as_slice().as_flattened(), table, part)
}

// The lower of two curves: all their buckets, in normal form.
pub fn lower(f: &[u64], g: &[u64], table: &mut [u64], part: Part) -> Result<usize, Refusal>
    ensures { Answers (lowering f.now g.now) part table.old table.new result }
{
    let (f, g) = checks::both(checks::curve(f), checks::curve(g))?;
    together(f, g, table, part)
}

// The sum of two curves, bucket by bucket. It is in normal form as it stands.
fn added(f: Curve<'_>, g: Curve<'_>, table: &mut [u64], part: Part) -> Result<usize, Refusal>
    ensures { Answers (delivering (flat (take 65 (merged_sum (curve_held f.entry) (curve_held g.entry))))) part table.old table.new result }
{
    let all = adding::add(f, g);
    deliver(all.as_slice().as_flattened(), table, part)
}

// Two curves added.
pub fn sum(f: &[u64], g: &[u64], table: &mut [u64], part: Part) -> Result<usize, Refusal>
    ensures { Answers (summing f.now g.now) part table.old table.new result }
{
    let (f, g) = checks::both(checks::curve(f), checks::curve(g))?;
    added(f, g, table, part)
}

// The curve held down by a link's bucket: its rate, and its longest frame at once.
pub fn shape(
    f: &[u64],
    rate: u64,
    frame: u64,
    table: &mut [u64],
    part: Part,
) -> Result<usize, Refusal>
    ensures { Answers (shaping f.now rate frame) part table.old table.new result }
{
    let (f, ()) = checks::both(checks::curve(f), checks::link(rate, frame))?;
    let link = [rate, frame];
    together(f, Curve { list: &link }, table, part)
}
