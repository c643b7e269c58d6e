// A curve at a server of either kind: backlog and delay there, and the server left beside a cross curve.
ghost use Rattle.meaning.specs.ServerQuestions.{BacklogOutcome, DelayOutcome, ResidualOutcome};
ghost use Rattle.checks.specs.Table.{code_of, told};
ghost use Rattle.servers.specs.Cited.{server_of, server_told};

use crate::{delayed, rated};
use checks::Refusal;
use servers::{Kind, Server};

// The most by which the curve is ahead of the service, at any tick.
pub fn backlog(curve: &[u64], server: Server) -> Result<u64, Refusal>
    ensures { BacklogOutcome curve.now (server_of server) (code_of result) (told result) }
{
    match server.kind {
        Kind::RateLatency { rate, latency } => rated::backlog(curve, rate, latency),
        Kind::PureDelay { latency } => delayed::backlog(curve, latency),
    }
}

// How long the curve is held, at most.
pub fn delay(curve: &[u64], server: Server) -> Result<u64, Refusal>
    ensures { DelayOutcome curve.now (server_of server) (code_of result) (told result) }
{
    match server.kind {
        Kind::RateLatency { rate, latency } => rated::delay(curve, rate, latency),
        Kind::PureDelay { latency } => delayed::delay(curve, latency),
    }
}

// The server left beside a cross curve.
pub fn residual(server: Server, cross: &[u64]) -> Result<Server, Refusal>
    ensures { ResidualOutcome cross.now (server_of server) (code_of result) (server_told result) }
{
    match server.kind {
        Kind::RateLatency { rate, latency } => rated::residual(rate, latency, cross),
        Kind::PureDelay { latency } => delayed::residual(latency, cross),
    }
}
