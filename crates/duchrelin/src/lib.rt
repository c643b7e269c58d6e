// The operations for C, under the names that include/duchrelin.h declares. A list passes as a pointer and a count of numbers, a
// result by value. Each function has the contract of the function that it calls, of a crate below.
#![tactic(auto)]

ghost use Rattle.meaning.specs.Server.{server_named};
ghost use Rattle.meaning.specs.Refusal.{Outcome};
ghost use Rattle.meaning.specs.CurveQuestions.{normalising, lowering, summing, shaping, ValueOutcome, BurstOutcome};
ghost use Rattle.meaning.specs.ServerQuestions.{passing, BacklogOutcome, DelayOutcome, JoinNumbers, ResidualNumbers};
ghost use Rattle.meaning.specs.Profile.{ReadNumbers, WriteCurveOutcome, WriteServerOutcome};
ghost use Rattle.meaning.specs.Route.{RouteOutcome};
ghost use Rattle.std.specs.Prelude.{◌≡◌};
ghost use Rattle.checks.specs.Table.{code_of};
ghost use Rattle.servers.specs.Cited.{numbers};
ghost use Rattle.duchrelin.specs.Cited.{server_numbers, profile_numbers, AnswerTold, FigureTold, ServerTold, ProfileTold, WrittenTold};

use checks::Refusal;
use operations::{curves, hops, ports, value};
use profiles::{Held, Profile};
use servers::{Server, ServerAnswer};
use settle::Part;

// A code, 0 for an answer, and the number of buckets, 0 for a refusal.
#[repr(C)]
#[derive(Clone, Copy, Debug, PartialEq, Eq)]
pub struct duchrelin_answer {
    pub code: u64,
    pub count: u64,
}

// A code, 0 for an answer, and the figure, 0 for a refusal.
#[repr(C)]
#[derive(Clone, Copy, Debug, PartialEq, Eq)]
pub struct duchrelin_figure {
    pub code: u64,
    pub figure: u64,
}

// A code, 0 for an answer, and the server in numbers: kind 2 and zeros for a refusal.
#[repr(C)]
#[derive(Clone, Copy, Debug, PartialEq, Eq)]
pub struct duchrelin_server {
    pub code: u64,
    pub kind: u64,
    pub rate: u64,
    pub latency: u64,
}

// A code, 0 for a file that is accepted, its edition and kind, the count of buckets of a curve, and the rate and latency of a server.
#[repr(C)]
#[derive(Clone, Copy, Debug, PartialEq, Eq)]
pub struct duchrelin_profile {
    pub code: u64,
    pub edition: u64,
    pub kind: u64,
    pub count: u64,
    pub rate: u64,
    pub latency: u64,
}

// A code, 0 for an answer, and the number of bytes written, 0 for a refusal.
#[repr(C)]
#[derive(Clone, Copy, Debug, PartialEq, Eq)]
pub struct duchrelin_written {
    pub code: u64,
    pub bytes: u64,
}

// The code of an answer: 0, or the number of the refusal.
fn code<A: Copy>(answer: Result<A, Refusal>) -> u64
    ensures { result ≡ code_of answer }
{
    match answer {
        Ok(_) => 0,
        Err(refusal) => refusal.into(),
    }
}

impl From<Result<usize, Refusal>> for duchrelin_answer {
    ghost from_gives = { AnswerTold };

    fn from(answer: Result<usize, Refusal>) -> duchrelin_answer {
        duchrelin_answer {
            code: code(answer),
            count: answer.unwrap_or(0) as u64,
        }
    }
}

impl From<Result<u64, Refusal>> for duchrelin_figure {
    ghost from_gives = { FigureTold };

    fn from(answer: Result<u64, Refusal>) -> duchrelin_figure {
        duchrelin_figure {
            code: code(answer),
            figure: answer.unwrap_or(0),
        }
    }
}

impl From<Result<Server, Refusal>> for duchrelin_server {
    ghost from_gives = { ServerTold };

    fn from(answer: Result<Server, Refusal>) -> duchrelin_server {
        let answer = ServerAnswer::from(answer);
        let numbers = answer.server.numbers();
        duchrelin_server {
            code: answer.code,
            kind: numbers.kind,
            rate: numbers.rate,
            latency: numbers.latency,
        }
    }
}

impl From<Result<Profile, Refusal>> for duchrelin_profile {
    ghost from_gives = { ProfileTold };

    fn from(answer: Result<Profile, Refusal>) -> duchrelin_profile {
        match answer {
            Ok(
                Profile {
                    edition,
                    held: Held::Curve(count),
                },
            ) => duchrelin_profile {
                code: 0,
                edition,
                kind: profiles::CURVE,
                count: count as u64,
                rate: 0,
                latency: 0,
            },
            Ok(
                Profile {
                    edition,
                    held: Held::Server(server),
                },
            ) => {
                let numbers = server.numbers();
                duchrelin_profile {
                    code: 0,
                    edition,
                    kind: numbers.kind,
                    count: 0,
                    rate: numbers.rate,
                    latency: numbers.latency,
                }
            }
            Err(refusal) => duchrelin_profile {
                code: refusal.into(),
                edition: 0,
                kind: 0,
                count: 0,
                rate: 0,
                latency: 0,
            },
        }
    }
}

impl From<Result<usize, Refusal>> for duchrelin_written {
    ghost from_gives = { WrittenTold };

    fn from(answer: Result<usize, Refusal>) -> duchrelin_written {
        duchrelin_written {
            code: code(answer),
            bytes: answer.unwrap_or(0) as u64,
        }
    }
}

// A raw list brought to normal form.
#[unsafe(no_mangle)]
pub extern "C" fn duchrelin_normalise(raw: &[u64], out: &mut [u64]) -> duchrelin_answer
    ensures { Outcome (normalising raw.now) out.old out.new result.code result.count }
{
    let whole = Part::whole(out);
    curves::normalise(raw, out, whole).into()
}

// What a curve gives at a tick: nothing at 0.
#[unsafe(no_mangle)]
pub extern "C" fn duchrelin_value(curve: &[u64], tick: u64) -> duchrelin_figure
    ensures { ValueOutcome curve.now tick result.code result.figure }
{
    value::value(curve, tick).into()
}

// What a curve lets come at once.
#[unsafe(no_mangle)]
pub extern "C" fn duchrelin_burst(curve: &[u64]) -> duchrelin_figure
    ensures { BurstOutcome curve.now result.code result.figure }
{
    value::burst(curve).into()
}

// The lower of two curves.
#[unsafe(no_mangle)]
pub extern "C" fn duchrelin_lower(f: &[u64], g: &[u64], out: &mut [u64]) -> duchrelin_answer
    ensures { Outcome (lowering f.now g.now) out.old out.new result.code result.count }
{
    let whole = Part::whole(out);
    curves::lower(f, g, out, whole).into()
}

// Two curves added.
#[unsafe(no_mangle)]
pub extern "C" fn duchrelin_sum(f: &[u64], g: &[u64], out: &mut [u64]) -> duchrelin_answer
    ensures { Outcome (summing f.now g.now) out.old out.new result.code result.count }
{
    let whole = Part::whole(out);
    curves::sum(f, g, out, whole).into()
}

// A curve shaped by a link of a rate and a longest frame.
#[unsafe(no_mangle)]
pub extern "C" fn duchrelin_shape(
    curve: &[u64],
    rate: u64,
    frame: u64,
    out: &mut [u64],
) -> duchrelin_answer
    ensures { Outcome (shaping curve.now rate frame) out.old out.new result.code result.count }
{
    let whole = Part::whole(out);
    curves::shape(curve, rate, frame, out, whole).into()
}

// The server that joins the next one.
#[unsafe(no_mangle)]
pub extern "C" fn duchrelin_join(
    kind: u64,
    rate: u64,
    latency: u64,
    next_kind: u64,
    next_rate: u64,
    next_latency: u64,
) -> duchrelin_server
    ensures { JoinNumbers (numbers kind rate latency) (numbers next_kind next_rate next_latency) result.code (server_numbers result) }
{
    let first = servers::named(kind, rate, latency);
    let next = servers::named(next_kind, next_rate, next_latency);
    first.join(next).into()
}

// The curve behind a server.
#[unsafe(no_mangle)]
pub extern "C" fn duchrelin_behind(
    curve: &[u64],
    kind: u64,
    rate: u64,
    latency: u64,
    out: &mut [u64],
) -> duchrelin_answer
    ensures { Outcome (passing curve.now (server_named (numbers kind rate latency))) out.old out.new result.code result.count }
{
    let whole = Part::whole(out);
    hops::behind(curve, servers::named(kind, rate, latency), out, whole).into()
}

// The most bits that wait at a server.
#[unsafe(no_mangle)]
pub extern "C" fn duchrelin_backlog(
    curve: &[u64],
    kind: u64,
    rate: u64,
    latency: u64,
) -> duchrelin_figure
    ensures { BacklogOutcome curve.now (server_named (numbers kind rate latency)) result.code result.figure }
{
    ports::backlog(curve, servers::named(kind, rate, latency)).into()
}

// The ticks within which all is served.
#[unsafe(no_mangle)]
pub extern "C" fn duchrelin_delay(
    curve: &[u64],
    kind: u64,
    rate: u64,
    latency: u64,
) -> duchrelin_figure
    ensures { DelayOutcome curve.now (server_named (numbers kind rate latency)) result.code result.figure }
{
    ports::delay(curve, servers::named(kind, rate, latency)).into()
}

// The server that is left beside cross traffic.
#[unsafe(no_mangle)]
pub extern "C" fn duchrelin_residual(
    kind: u64,
    rate: u64,
    latency: u64,
    cross: &[u64],
) -> duchrelin_server
    ensures { ResidualNumbers cross.now (numbers kind rate latency) result.code (server_numbers result) }
{
    ports::residual(servers::named(kind, rate, latency), cross).into()
}

// The one profile that a file holds.
#[unsafe(no_mangle)]
#[tactic(auto, using(crate::proofs::InNumbers::whole_reading))]
pub extern "C" fn duchrelin_read(file: &[u8], out: &mut [u64]) -> duchrelin_profile
    ensures { ReadNumbers file.now out.old out.new (profile_numbers result) }
{
    let whole = Part::whole(out);
    profiles::read(file, out, whole).into()
}

// A curve as a file of an edition.
#[unsafe(no_mangle)]
pub extern "C" fn duchrelin_write_curve(
    edition: u64,
    curve: &[u64],
    buffer: &mut [u8],
) -> duchrelin_written
    ensures { WriteCurveOutcome edition curve.now buffer.old buffer.new result.code result.bytes }
{
    profiles::write_curve(edition, curve, buffer).into()
}

// A server as a file of an edition.
#[unsafe(no_mangle)]
pub extern "C" fn duchrelin_write_server(
    edition: u64,
    kind: u64,
    rate: u64,
    latency: u64,
    buffer: &mut [u8],
) -> duchrelin_written
    ensures { WriteServerOutcome edition (server_named (numbers kind rate latency)) buffer.old buffer.new result.code result.bytes }
{
    profiles::write_server(edition, servers::named(kind, rate, latency), buffer).into()
}

// The report of a route, as text.
#[unsafe(no_mangle)]
pub extern "C" fn duchrelin_route(input: &[u8], text: &mut [u8]) -> duchrelin_written
    ensures { RouteOutcome input.now text.old text.new result.code result.bytes }
{
    routes::route(input, text).into()
}
