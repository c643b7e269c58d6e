// A server: the struct that stands for one everywhere, its test, how it joins the next one, and its numbers.
#![tactic(auto)]

ghost use Rattle.std.specs.Prelude.{◌≡◌};
ghost use Rattle.meaning.specs.Server.{port, pure_delay, numbers_of, server_named, join};
ghost use Rattle.meaning.specs.ServerQuestions.{JoinOutcome};
ghost use Rattle.checks.specs.Table.{code_of};
ghost use Rattle.servers.specs.Cited.{of_kind, server_of, server_told, numbers_held, numbers, Late, Tested, Refusing, Tells};

use checks::{Refusal, limits};

// The kinds of servers by their numbers.
pub const RATE_LATENCY: u64 = 2;

pub const PURE_DELAY: u64 = 3;

// What a server is: rate-latency, with its two numbers, or a pure delay, with one.
#[derive(Clone, Copy, Debug, PartialEq, Eq)]
pub enum Kind {
    RateLatency { rate: u64, latency: u64 },
    PureDelay { latency: u64 },
}

// A switch port, which serves `rate` bits a tick once `latency` ticks are over; or a device that only delays.
#[derive(Clone, Copy, Debug, PartialEq, Eq)]
pub struct Server {
    pub kind: Kind,
}

// An answer as a code and a server: 0 and the server, or a refusal's number and rate-latency (0, 0).
#[derive(Clone, Copy, Debug, PartialEq, Eq)]
pub struct ServerAnswer {
    pub code: u64,
    pub server: Server,
}

// A server in three numbers, from which C's struct is filled. A pure delay has rate 0.
#[derive(Clone, Copy, Debug, PartialEq, Eq)]
pub struct Numbers {
    pub kind: u64,
    pub rate: u64,
    pub latency: u64,
}

impl Kind {
    // The latency of either kind.
    fn latency(self) -> u64
        ensures { result ≡ (numbers_of (of_kind self)).latency }
    {
        match self {
            Kind::RateLatency { latency, .. } | Kind::PureDelay { latency } => latency,
        }
    }

    // The joined kind of two servers whose latencies are in range.
    #[tactic(auto, using(crate::proofs::Joins::combining))]
    fn join(self, next: Kind) -> Kind
        requires first_late { Late (of_kind self) }
        requires second_late { Late (of_kind next) }
        ensures { of_kind result ≡ join (of_kind self) (of_kind next) }
    {
        let latency = self.latency() + next.latency();
        match (self, next) {
            (Kind::RateLatency { rate, .. }, Kind::RateLatency { rate: other, .. }) => {
                Kind::RateLatency {
                    rate: rate.min(other),
                    latency,
                }
            }
            (Kind::RateLatency { rate, .. }, Kind::PureDelay { .. }) => {
                Kind::RateLatency { rate, latency }
            }
            (Kind::PureDelay { .. }, Kind::RateLatency { rate, .. }) => {
                Kind::RateLatency { rate, latency }
            }
            (Kind::PureDelay { .. }, Kind::PureDelay { .. }) => Kind::PureDelay { latency },
        }
    }
}

impl Server {
    // Tests the server.
    pub fn refusal(self) -> Result<(), Refusal>
        ensures { Tested (server_of self) (code_of result) }
    {
        match self.kind {
            Kind::RateLatency { rate, latency } => rated_refusal(rate, latency),
            Kind::PureDelay { latency } => delay_refusal(latency),
        }
    }

    // The server that joins the next one: the smaller of their rates, the latencies added; of two pure delays, a pure delay.
    pub fn join(self, next: Server) -> Result<Server, Refusal>
        ensures { JoinOutcome (server_of self) (server_of next) (code_of result) (server_told result) }
    {
        checks::both(self.refusal(), next.refusal())?;
        let kind = self.kind.join(next.kind);
        if limits::LATENCY_END <= kind.latency() {
            return Err(Refusal::Large);
        }
        Ok(Server { kind })
    }

    // Its numbers.
    pub fn numbers(self) -> Numbers
        ensures { numbers_held result ≡ numbers_of (server_of self) }
    {
        match self.kind {
            Kind::RateLatency { rate, latency } => Numbers {
                kind: RATE_LATENCY,
                rate,
                latency,
            },
            Kind::PureDelay { latency } => Numbers {
                kind: PURE_DELAY,
                rate: 0,
                latency,
            },
        }
    }
}

// The same answer as a code and a server.
impl From<Result<Server, Refusal>> for ServerAnswer {
    ghost from_gives = { Tells };

    fn from(answer: Result<Server, Refusal>) -> ServerAnswer {
        match answer {
            Ok(server) => ServerAnswer { code: 0, server },
            Err(refusal) => refused(refusal.into()),
        }
    }
}

// The server of a rate and a latency.
pub fn rated(rate: u64, latency: u64) -> Server
    ensures { server_of result ≡ port rate latency }
{
    Server {
        kind: Kind::RateLatency { rate, latency },
    }
}

// The server of a latency alone.
pub fn pure_delay(latency: u64) -> Server
    ensures { server_of result ≡ pure_delay latency }
{
    Server {
        kind: Kind::PureDelay { latency },
    }
}

// The server that three numbers stand for: where they are no server's, one that is out of its range.
#[tactic(auto, using(crate::proofs::Joins::naming))]
pub fn named(kind: u64, rate: u64, latency: u64) -> Server
    ensures { server_of result ≡ server_named (numbers kind rate latency) }
{
    match kind {
        RATE_LATENCY => rated(rate, latency),
        PURE_DELAY if rate == 0 => pure_delay(latency),
        PURE_DELAY => pure_delay(limits::LATENCY_END),
        _ => rated(0, 0),
    }
}

// Tests a rate-latency server.
pub fn rated_refusal(rate: u64, latency: u64) -> Result<(), Refusal>
    ensures { Tested (port rate latency) (code_of result) }
{
    if rate == 0 || limits::RATE_END <= rate || limits::LATENCY_END <= latency {
        return Err(Refusal::Range);
    }
    Ok(())
}

// Tests a pure delay.
pub fn delay_refusal(latency: u64) -> Result<(), Refusal>
    ensures { Tested (pure_delay latency) (code_of result) }
{
    if limits::LATENCY_END <= latency {
        return Err(Refusal::Range);
    }
    Ok(())
}

// A refusal with its number, and no server.
pub fn refused(code: u64) -> ServerAnswer
    ensures { Refusing code result }
{
    ServerAnswer {
        code,
        server: rated(0, 0),
    }
}
