// A curve passed through a server: the curve behind, in a part of a lent table, with backlog and delay there.
ghost use Rattle.meaning.specs.ServerQuestions.{passing};
ghost use Rattle.servers.specs.Cited.{server_of};
ghost use Rattle.settle.specs.Parts.{Answers};
ghost use Rattle.operations.specs.Told.{HopTold};

use crate::{delayed, rated};
use checks::Refusal;
use servers::{Kind, Server};
use settle::Part;

// A hop of a route: the number of buckets of the curve behind, backlog and delay, and the server passed.
#[derive(Clone, Copy, Debug, PartialEq, Eq)]
pub struct Hop {
    pub count: usize,
    pub backlog: u64,
    pub delay: u64,
    pub server: Server,
}

// A hop: the curve that leaves the server, with backlog and delay.
pub fn pass(curve: &[u64], server: Server, table: &mut [u64], part: Part) -> Result<Hop, Refusal>
    ensures { HopTold curve.now (server_of server) part table.old table.new result }
{
    match server.kind {
        Kind::RateLatency { rate, latency } => rated::pass(curve, rate, latency, table, part),
        Kind::PureDelay { latency } => delayed::pass(curve, latency, table, part),
    }
}

// The curve behind a server, alone. (The figures of the hop cost little beside it.)
pub fn behind(
    curve: &[u64],
    server: Server,
    table: &mut [u64],
    part: Part,
) -> Result<usize, Refusal>
    ensures { Answers (passing curve.now (server_of server)) part table.old table.new result }
{
    Ok(pass(curve, server, table, part)?.count)
}
