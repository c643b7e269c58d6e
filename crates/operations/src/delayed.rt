// A curve at a pure delay, which serves nothing up to its latency and without limit after: backlog and delay there, and the curve
// behind. It has no rate to share, so that nothing of it is left beside a cross curve.
ghost use Rattle.std.specs.Prelude.{map, ◌<◌, ◌^◌};
ghost use Rattle.meaning.specs.Curve.{flat};
ghost use Rattle.meaning.specs.Server.{pure_delay, later, Delay};
ghost use Rattle.meaning.specs.ServerQuestions.{BacklogOutcome, DelayOutcome, ResidualOutcome};
ghost use Rattle.checks.specs.Held.{curve_held};
ghost use Rattle.checks.specs.Table.{code_of, told};
ghost use Rattle.servers.specs.Cited.{server_told};
ghost use Rattle.settle.specs.Cited.{settling};
ghost use Rattle.settle.specs.Parts.{Answers};
ghost use Rattle.operations.specs.Told.{HopTold};

use crate::hops::Hop;
use crate::lowest::{carries_nothing, least_from};
use crate::{gather, refusals};
use checks::{Bucket, Curve, Refusal};
use servers::Server;
use settle::{Part, settle};

// All that has come by the latency waits: the curve's value there, at 0 its burst.
pub(crate) fn backlog(curve: &[u64], latency: u64) -> Result<u64, Refusal>
    ensures { BacklogOutcome curve.now (pure_delay latency) (code_of result) (told result) }
{
    let curve = refusals::at_delay(curve, latency)?;
    Ok(least_from(curve, 0, latency))
}

// How long it holds a curve: for its latency, and a curve that carries nothing for no time.
fn held(curve: Curve<'_>, latency: u64) -> u64
    ensures { Delay (curve_held curve.entry) (pure_delay latency) result }
{
    if carries_nothing(curve) {
        return 0;
    }
    latency
}

// The delay there.
pub(crate) fn delay(curve: &[u64], latency: u64) -> Result<u64, Refusal>
    ensures { DelayOutcome curve.now (pure_delay latency) (code_of result) (told result) }
{
    let curve = refusals::at_delay(curve, latency)?;
    Ok(held(curve, latency))
}

// Beside a cross curve it is RANGE, unless the curve is refused with a smaller number. Its latency is not looked at, since out of
// range it is RANGE too.
pub(crate) fn residual(latency: u64, cross: &[u64]) -> Result<Server, Refusal>
    ensures { ResidualOutcome cross.now (pure_delay latency) (code_of result) (server_told result) }
{
    match checks::curve(cross) {
        Ok(_) => Err(Refusal::Range),
        Err(refusal) => Err(refusal.min(Refusal::Range)),
    }
}

// The curve's buckets, each read `latency` ticks later, in normal form. (The first stands where a rate-latency server has its line.)
fn behind(curve: Curve<'_>, latency: u64, table: &mut [u64], part: Part) -> Result<usize, Refusal>
    requires { latency < 2 ^ 20 }
    ensures { Answers (settling (flat (map (later latency) (curve_held curve.entry)))) part table.old table.new result }
{
    let first = curve.bucket(0);
    let line = Bucket {
        rate: first.rate,
        burst: first.burst + first.rate * latency,
    };
    let raw = gather::line_and_later(curve, 1, line, latency);
    settle(raw.as_slice().as_flattened(), table, part)
}

// A hop: the curve that leaves the pure delay, with backlog and delay; tested once.
pub(crate) fn pass(
    curve: &[u64],
    latency: u64,
    table: &mut [u64],
    part: Part,
) -> Result<Hop, Refusal>
    ensures { HopTold curve.now (pure_delay latency) part table.old table.new result }
{
    let curve = refusals::at_delay(curve, latency)?;
    let count = behind(curve, latency, table, part)?;
    Ok(Hop {
        count,
        backlog: least_from(curve, 0, latency),
        delay: held(curve, latency),
        server: servers::pure_delay(latency),
    })
}
