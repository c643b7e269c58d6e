// A curve at a rate-latency server: backlog and delay there, the curve behind, and the server left beside a cross curve.
ghost use Rattle.meaning.specs.Server.{port};
ghost use Rattle.meaning.specs.ServerQuestions.{BacklogOutcome, DelayOutcome, ResidualOutcome};
ghost use Rattle.checks.specs.Table.{code_of, told};
ghost use Rattle.servers.specs.Cited.{server_told};
ghost use Rattle.operations.specs.Told.{HopTold};

use crate::hops::Hop;
use crate::port::Port;
use crate::refusals;
use checks::{Refusal, limits};
use servers::Server;
use settle::Part;

// The most by which the curve is ahead of the service, at any tick.
pub(crate) fn backlog(curve: &[u64], rate: u64, latency: u64) -> Result<u64, Refusal>
    ensures { BacklogOutcome curve.now (port rate latency) (code_of result) (told result) }
{
    let port = Port::open(curve, rate, latency)?;
    Ok(port.backlog(port.excess()))
}

// The least d with which all that has come by a tick is served d ticks later, whatever the tick.
pub(crate) fn delay(curve: &[u64], rate: u64, latency: u64) -> Result<u64, Refusal>
    ensures { DelayOutcome curve.now (port rate latency) (code_of result) (told result) }
{
    let port = Port::open(curve, rate, latency)?;
    Ok(port.delay(port.excess()))
}

// The server left beside a cross curve: its rate less the cross curve's last rate, its latency and the time that it takes for the
// last burst, rounded up.
pub(crate) fn residual(rate: u64, latency: u64, cross: &[u64]) -> Result<Server, Refusal>
    ensures { ResidualOutcome cross.now (port rate latency) (code_of result) (server_told result) }
{
    let cross = refusals::cross(cross, rate, latency)?;
    let last = cross.last();
    let late = latency + last.burst.div_ceil(rate);
    if limits::LATENCY_END <= late {
        return Err(Refusal::Large);
    }
    Ok(servers::rated(rate - last.rate, late))
}

// A hop: the curve that leaves the server, with backlog and delay; tested once, and M worked out once.
pub(crate) fn pass(
    curve: &[u64],
    rate: u64,
    latency: u64,
    table: &mut [u64],
    part: Part,
) -> Result<Hop, Refusal>
    ensures { HopTold curve.now (port rate latency) part table.old table.new result }
{
    let port = Port::open(curve, rate, latency)?;
    let excess = port.excess();
    let count = port.behind(excess, table, part)?;
    Ok(Hop {
        count,
        backlog: port.backlog(excess),
        delay: port.delay(excess),
        server: servers::rated(rate, latency),
    })
}
