// The profile in a file whose frame is right: a server, or a curve that is decoded into local memory, tested, and only then handed
// over.
ghost use Rattle.std.specs.Prelude.{◌≡◌};
ghost use Rattle.meaning.specs.Curve.{flat};
ghost use Rattle.meaning.specs.Profile.{server_held, buckets_in, ReadPartOutcome};
ghost use Rattle.servers.specs.Cited.{server_of};
ghost use Rattle.profiles.specs.Cited.{reading_of, ServerFile, CurveFile, Holds, ReadAlone};

use crate::bits::BitReader;
use crate::{Held, Profile};
use arrayvec::ArrayVec;
use checks::Refusal;
use servers::Server;
use settle::Part;
use settle::deliver::deliver;

// The server that a file holds: a pure delay if its kind says so, or else rate-latency.
#[tactic(auto, using(crate::proofs::Readings::server_held_rules))]
fn held(file: &[u8]) -> Server
    requires { ServerFile file.now }
    ensures { server_of result ≡ server_held file.now }
{
    let mut reader = BitReader::at(file, crate::HEADER_BITS);
    let first = reader.take(20);
    if crate::kind_in(file) == servers::PURE_DELAY {
        return servers::pure_delay(first);
    }
    servers::rated(first, reader.take(20))
}

// Reads a server.
pub(crate) fn server(file: &[u8]) -> Result<Profile, Refusal>
    requires { ServerFile file.now }
    ensures { ReadAlone file.now (reading_of result) }
{
    let server = held(file);
    server.refusal()?;
    Ok(Profile {
        edition: crate::edition_in(file),
        held: Held::Server(server),
    })
}

// The rates and bursts of so many buckets of a file, one after the other.
#[tactic(auto, using(crate::proofs::Decoding::decoding))]
fn decode(file: &[u8], count: usize) -> ArrayVec<u64, 128>
    requires { Holds file.now count }
    ensures { result.items ≡ flat (buckets_in file.now 14 count) }
{
    let mut pairs = ArrayVec::new();
    let mut reader = BitReader::at(file, 14);
    for _ in 0..count {
        pairs.push(reader.take(20));
        pairs.push(reader.take(40));
    }
    pairs
}

// Reads a curve, into a part of a table.
pub(crate) fn curve(file: &[u8], table: &mut [u64], part: Part) -> Result<Profile, Refusal>
    requires { CurveFile file.now }
    ensures { ReadPartOutcome file.now part.at part.room table.old table.new (reading_of result) }
{
    let pairs = decode(file, crate::count_in(file));
    checks::curve(pairs.as_slice())?;
    let count = deliver(pairs.as_slice(), table, part)?;
    Ok(Profile {
        edition: crate::edition_in(file),
        held: Held::Curve(count),
    })
}
